//! The waits as arrows, from the lane that gives what is waited for.

use crate::drawing::Drawing;
use crate::frame::{BAR_AND_STRIPE, Frame};
use crate::xml::push_length;
use deb_text::push_pieces;
use std::alloc::AllocError;
use timed_run::Event;
use timeline::{LaneFacts, waited};

/// How wide a wait is at least that has an arrow of its own.
const SEEN: u128 = 20;

/// How far arrows of one lane are from each other at least.
const APART: u128 = 10;

/// Puts the end of an arrow from one lane to another behind a text.
fn push_way(text: &mut Vec<u8>, frame: &Frame, from: usize, to: usize) -> Result<(), AllocError> {
    let (begin, end) = if from < to {
        (
            frame.down(from).saturating_add(BAR_AND_STRIPE),
            frame.down(to),
        )
    } else {
        (
            frame.down(from),
            frame.down(to).saturating_add(BAR_AND_STRIPE),
        )
    };
    push_length(text, b" ", begin)?;
    push_length(text, b"V", end)
}

/// Puts an arrow behind a text.
fn push_arrow(
    text: &mut Vec<u8>,
    drawing: &Drawing<'_>,
    is_critical: bool,
    from: &Event,
    to: &Event,
) -> Result<(), AllocError> {
    let class: &[u8] = if is_critical {
        b"<path class=\"c\" marker-end=\"url(#ct)\" d=\"M"
    } else {
        b"<path class=\"a\" marker-end=\"url(#at)\" d=\"M"
    };
    let across = drawing.frame.across(to.begin);
    push_length(text, class, drawing.frame.left.saturating_add(across))?;
    push_way(text, drawing.frame, from.lane, to.lane)?;
    push_pieces(text, &[b"\"/>\n"])
}

/// The event that gives what the event of a number waits for, of another lane.
fn giver<'a>(drawing: &Drawing<'a>, number: usize, event: &Event) -> Option<&'a Event> {
    let from = drawing.run.event(drawing.facts.cause(number)?)?;
    if from.lane == event.lane {
        None
    } else {
        Some(from)
    }
}

/// Tells whether a wait has an arrow among those of the critical path, or among the others.
fn is_drawn(drawing: &Drawing<'_>, is_critical: bool, number: usize, event: &Event) -> bool {
    if waited(event) == 0 || drawing.is_on_path(number) != is_critical {
        return false;
    }
    is_critical || drawing.frame.span(event.free, event.begin) >= SEEN
}

/// Tells whether an arrow at a place is apart from the one before it.
fn is_apart(before: Option<u128>, across: u128) -> bool {
    match before {
        Some(before) => across.saturating_sub(before) >= APART,
        None => true,
    }
}

/// Puts the arrows to a lane behind a text.
fn push_lane(
    text: &mut Vec<u8>,
    drawing: &Drawing<'_>,
    is_critical: bool,
    lane: &LaneFacts,
) -> Result<(), AllocError> {
    let mut before = None;
    for number in lane.events.as_slice() {
        let Some(event) = drawing.run.event(*number) else {
            continue;
        };
        let across = drawing.frame.across(event.begin);
        if !is_drawn(drawing, is_critical, *number, event) || !is_apart(before, across) {
            continue;
        }
        if let Some(from) = giver(drawing, *number, event) {
            push_arrow(text, drawing, is_critical, from, event)?;
            before = Some(across);
        }
    }
    Ok(())
}

/// Puts an arrow for each wait behind a text: those of the critical path, or the others that can be
/// seen.
pub(crate) fn push_arrows(
    text: &mut Vec<u8>,
    drawing: &Drawing<'_>,
    is_critical: bool,
) -> Result<(), AllocError> {
    for lane in drawing.facts.lanes.as_slice() {
        push_lane(text, drawing, is_critical, lane)?;
    }
    Ok(())
}
