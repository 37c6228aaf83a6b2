//! The scale of the time.

use crate::frame::{Frame, TOP};
use crate::xml::push_length;
use deb_text::push_pieces;
use std::alloc::AllocError;
use timeline::push_count;

/// How many parts the scale has, about.
const PARTS: u128 = 8;

/// How many marks it has at most.
const MOST_MARKS: usize = 9;

/// The smallest of these that is not below a number: it, twice and five times it.
fn rounded(power: u128, least: u128) -> Option<u128> {
    for factor in [1u128, 2, 5] {
        let step = power.saturating_mul(factor);
        if step >= least {
            return Some(step);
        }
    }
    None
}

/// From one mark of the scale to the next: a power of ten, or twice or five times that.
fn step_of(end: u128) -> u128 {
    let least = (end / PARTS).saturating_add(1);
    let mut power = 1u128;
    for _ in 0..38 {
        if let Some(step) = rounded(power, least) {
            return step;
        }
        power = power.saturating_mul(10);
    }
    power
}

/// Puts a mark of the scale behind a text.
fn push_mark(text: &mut Vec<u8>, frame: &Frame, time: u128) -> Result<(), AllocError> {
    let across = frame.left.saturating_add(frame.across(time));
    push_length(text, b"<path class=\"grid\" d=\"M", across)?;
    push_length(text, b" ", TOP.saturating_sub(80))?;
    push_length(text, b"V", frame.below())?;
    push_length(text, b"\"/>\n<text text-anchor=\"middle\" x=\"", across)?;
    push_length(text, b"\" y=\"", TOP.saturating_sub(120))?;
    push_count(text, b"\">", time)?;
    push_pieces(text, &[b"</text>\n"])
}

/// Puts the scale of the time up to `end` behind a text.
pub(crate) fn push_scale(text: &mut Vec<u8>, frame: &Frame, end: u128) -> Result<(), AllocError> {
    push_length(
        text,
        b"<text class=\"note\" x=\"12\" y=\"",
        TOP.saturating_sub(120),
    )?;
    push_pieces(text, &[b"\">time in steps</text>\n"])?;
    let step = step_of(end);
    let mut time = 0u128;
    for _ in 0..MOST_MARKS {
        if time > end {
            return Ok(());
        }
        push_mark(text, frame, time)?;
        time = time.saturating_add(step);
    }
    Ok(())
}
