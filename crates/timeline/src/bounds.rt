//! Times below which no plan of the same builds can come.

use crate::push_count;
use crate::story::Story;
use deb_text::push_pieces;
use std::alloc::AllocError;

/// A part of a whole that is cut into so many, rounded up; nothing of none.
fn part_of(whole: u128, count: u128) -> u128 {
    let part = whole.checked_div(count).unwrap_or(0);
    let rest = whole.checked_rem(count).unwrap_or(0);
    part.saturating_add(rest.min(1))
}

/// Puts the bounds behind a text: the dearest lane, and all work by the number of lanes.
pub(crate) fn push_bounds(text: &mut Vec<u8>, story: &Story<'_>) -> Result<(), AllocError> {
    let mut dearest = 0u128;
    let mut work = 0u128;
    for lane in story.facts.lanes.as_slice() {
        dearest = dearest.max(lane.time.busy);
        work = work.saturating_add(lane.time.busy);
    }
    let lanes = story.facts.lanes.len() as u128;
    push_count(text, b"no sooner than ", dearest)?;
    push_pieces(text, &[b", the dearest lane\n"])?;
    push_count(text, b"no sooner than ", part_of(work, lanes))?;
    push_count(text, b", all work by ", lanes)?;
    push_pieces(text, &[b" lanes\n"])
}
