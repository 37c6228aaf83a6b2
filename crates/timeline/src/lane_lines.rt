//! The lines of the lanes, and of their longest waits.

use crate::best::{Best, Ranked};
use crate::story::{Story, instruction_number};
use crate::{LaneFacts, push_count, waited};
use deb_text::push_pieces;
use plan_reader::lane_name;
use std::alloc::{AllocError, Global};

/// The most waits of a lane that are told.
const MOST_WAITS: usize = 5;

/// Puts the times of each lane behind a text, a line each.
pub(crate) fn push_lanes(text: &mut Vec<u8>, story: &Story<'_>) -> Result<(), AllocError> {
    let lanes = story.facts.lanes.as_slice();
    for number in 0..lanes.len() {
        let time = lanes[number].time;
        push_pieces(text, &[b"lane ", lane_name(story.run.plan, number)])?;
        push_count(text, b" ends at ", time.end)?;
        push_count(text, b" busy ", time.busy)?;
        push_count(text, b" idle ", time.idle)?;
        push_pieces(text, &[b"\n"])?;
    }
    Ok(())
}

/// The longest waits of a lane, the longest first.
fn longest_waits(alloc: Global, story: &Story<'_>, lane: &LaneFacts) -> Result<Best, AllocError> {
    let mut best = Best::new(alloc, MOST_WAITS);
    for number in lane.events.as_slice() {
        if let Some(event) = story.run.event(*number) {
            let idle = waited(event);
            if idle > 0 {
                best.offer(Ranked {
                    rank: u128::MAX - idle,
                    next: 0,
                    number: *number,
                })?;
            }
        }
    }
    Ok(best)
}

/// Puts the line of a wait behind a text.
fn push_wait(text: &mut Vec<u8>, story: &Story<'_>, number: usize) -> Result<(), AllocError> {
    let Some(event) = story.run.event(number) else {
        return Ok(());
    };
    push_count(text, b"  idle ", event.free)?;
    push_count(text, b" to ", event.begin)?;
    push_count(text, b" at instruction ", instruction_number(event))?;
    push_pieces(text, &[b" ("])?;
    story.push_place(text, event)?;
    push_pieces(text, &[b"),"])?;
    story.push_cause(text, number)?;
    push_pieces(text, &[b"\n"])
}

/// Puts the longest waits of each lane behind a text, below the name of the lane.
pub(crate) fn push_waits(
    alloc: Global,
    text: &mut Vec<u8>,
    story: &Story<'_>,
) -> Result<(), AllocError> {
    let lanes = story.facts.lanes.as_slice();
    for number in 0..lanes.len() {
        let best = longest_waits(alloc, story, &lanes[number])?;
        if !best.found().is_empty() {
            push_pieces(text, &[b"lane ", lane_name(story.run.plan, number), b"\n"])?;
        }
        for ranked in best.found() {
            push_wait(text, story, ranked.number)?;
        }
    }
    Ok(())
}
