//! How much later events could end.

use std::alloc::{AllocError, Global};
use timed_run::Event;

/// Lowers the number at a place to another.
fn lower(latest: &mut Vec<u128>, place: Option<usize>, time: u128) {
    let Some(number) = place else {
        return;
    };
    if let Some(last) = latest.get_mut(number) {
        *last = time.min(*last);
    }
}

/// The place of an event among these, if it has one there.
fn place_at(places: &[Option<usize>], number: usize) -> Option<usize> {
    *places.get(number)?
}

/// By event: how much later it could end, all else going on as it does, and the run not end later
/// than at `end`. An event goes on behind that before it in its lane, and behind its cause.
pub(crate) fn slacks(
    alloc: Global,
    events: &[Event],
    end: u128,
    before: &[Option<usize>],
    causes: &[Option<usize>],
) -> Result<Vec<u128>, AllocError> {
    let mut latest = vec![in alloc; end; events.len()]?;
    for step in 0..events.len() {
        let number = events.len() - 1 - step;
        let event = &events[number];
        let last = latest.get(number).copied().unwrap_or(end);
        let begin = last.saturating_sub(event.end.saturating_sub(event.begin));
        lower(&mut latest, place_at(before, number), begin);
        lower(&mut latest, place_at(causes, number), begin);
    }
    let mut slacks = Vec::new(alloc);
    for number in 0..events.len() {
        let last = latest.get(number).copied().unwrap_or(end);
        slacks.push(last.saturating_sub(events[number].end))?;
    }
    Ok(slacks)
}
