//! A bar for each lane.

use crate::LaneFacts;
use crate::marks::{Mark, Share, Span, add_span, byte_of};
use crate::story::Story;
use deb_text::push_pieces;
use plan_reader::lane_name;
use std::alloc::{AllocError, Global};
use timed_run::Event;

/// How many columns a line has at most.
const COLUMNS: usize = 80;

/// The length of the longest name of a lane.
fn longest_name(story: &Story<'_>) -> usize {
    let mut longest = 0;
    for number in 0..story.run.plan.lanes() {
        longest = lane_name(story.run.plan, number).len().max(longest);
    }
    longest
}

/// What a lane does in an event, and how long.
fn span_of(story: &Story<'_>, event: &Event) -> Span {
    let mark = match story.run.built(event) {
        Some(_) => Mark::Build,
        None => Mark::Install,
    };
    Span {
        mark,
        begin: event.begin,
        end: event.end,
    }
}

/// The parts of the bar of a lane.
fn shares_of(
    alloc: Global,
    story: &Story<'_>,
    lane: &LaneFacts,
    width: usize,
) -> Result<Vec<Share>, AllocError> {
    let mut shares = vec![in alloc; Share::NONE; width]?;
    let total = story.run.end;
    for number in lane.events.as_slice() {
        if let Some(event) = story.run.event(*number) {
            let wait = Span {
                mark: Mark::Wait,
                begin: event.free,
                end: event.begin,
            };
            add_span(&mut shares, wait, total);
            add_span(&mut shares, span_of(story, event), total);
        }
    }
    Ok(shares)
}

/// How many parts there are up to the last one that something takes.
fn used_parts(shares: &[Share]) -> usize {
    let mut used = 0;
    for part in 0..shares.len() {
        if shares[part].mark().is_some() {
            used = part + 1;
        }
    }
    used
}

/// Puts a bar behind a text, with so many blanks before it. Nothing is put for a bar in which nothing is
/// done.
fn push_bar(text: &mut Vec<u8>, shares: &[Share], blanks: usize) -> Result<(), AllocError> {
    let used = used_parts(shares);
    if used == 0 {
        return Ok(());
    }
    for _ in 0..blanks {
        push_pieces(text, &[b" "])?;
    }
    for share in shares.get(..used).unwrap_or(shares) {
        push_pieces(text, &[byte_of(*share)])?;
    }
    Ok(())
}

/// Puts a bar for each lane behind a text, a line each.
pub(crate) fn push_bars(
    alloc: Global,
    text: &mut Vec<u8>,
    story: &Story<'_>,
) -> Result<(), AllocError> {
    let longest = longest_name(story);
    let width = COLUMNS.saturating_sub(longest).saturating_sub(1).max(1);
    let lanes = story.facts.lanes.as_slice();
    for number in 0..lanes.len() {
        let name = lane_name(story.run.plan, number);
        push_pieces(text, &[name])?;
        let shares = shares_of(alloc, story, &lanes[number], width)?;
        let blanks = longest.saturating_sub(name.len()).saturating_add(1);
        push_bar(text, &shares, blanks)?;
        push_pieces(text, &[b"\n"])?;
    }
    Ok(())
}
