//! What lets waits pass.

use crate::archive::archive_of;
use crate::givers::{Giver, Givers};
use crate::timed_plan::TimedPlan;
use deb_relation::{Atom, Entry};
use plan_reader::Instruction;
use std::alloc::{AllocError, Global};
use timed_run::Event;

/// When what is given enters the archive.
fn entered(events: &[Event], giver: Giver) -> u128 {
    match giver.number {
        Some(number) => match events.get(number) {
            Some(event) => event.end,
            None => 0,
        },
        None => 0,
    }
}

/// Tells whether one enters later than another that was found.
fn is_later(events: &[Event], found: Option<Giver>, other: Giver) -> bool {
    match found {
        Some(giver) => entered(events, other) > entered(events, giver),
        None => false,
    }
}

/// Which of two enters first, and of two that do so at one moment the later one in the run.
fn first_of(events: &[Event], found: Option<Giver>, other: Giver) -> Giver {
    let Some(giver) = found else {
        return other;
    };
    let (its, others) = (entered(events, giver), entered(events, other));
    if its < others || (its == others && giver.number > other.number) {
        giver
    } else {
        other
    }
}

/// What satisfies an alternative first, or what was found before.
fn first_by(
    run: &TimedPlan<'_>,
    archive: &Givers,
    atom: &Atom,
    before: Option<Giver>,
) -> Option<Giver> {
    let mut found = before;
    for item in archive.listed(atom) {
        let giver = item.owner;
        if is_later(run.events, found, giver) {
            return found;
        }
        if giver.satisfies(run.universe, atom) {
            found = Some(first_of(run.events, found, giver));
        }
    }
    found
}

/// What satisfies an entry first.
fn first(run: &TimedPlan<'_>, archive: &Givers, entry: &Entry) -> Option<Giver> {
    let mut found = None;
    for atom in entry.alternatives() {
        found = first_by(run, archive, atom, found);
    }
    found
}

/// The number of the output that lets an event pass, if it is a wait for one.
fn cause(run: &TimedPlan<'_>, archive: &Givers, event: &Event) -> Option<usize> {
    match run.instruction(event) {
        Some(Instruction::Wait(entry)) => first(run, archive, entry)?.number,
        _ => None,
    }
}

/// By event: the number of the output that lets it pass, if it is a wait for one. It is the first
/// one that satisfies the wait, and of those that do so at one moment the last one in the order of
/// the run.
pub(crate) fn causes(alloc: Global, run: &TimedPlan<'_>) -> Result<Vec<Option<usize>>, AllocError> {
    let archive = archive_of(alloc, run)?;
    let mut causes = Vec::new(alloc);
    for event in run.events {
        causes.push(cause(run, &archive, event))?;
    }
    Ok(causes)
}
