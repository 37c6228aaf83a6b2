//! The text of a plan.

use crate::comments::push_comments;
use crate::looked::Lanes;
use crate::{About, length_note};
use deb_text::push_pieces;
use draft_lanes::{Lane, Step};
use itoa::Buffer;
use plan_reader::MOST_INSTRUCTIONS;
use std::alloc::AllocError;

/// Puts a line of names behind a text.
fn push_names(
    text: &mut Vec<u8>,
    about: &About<'_>,
    verb: &[u8],
    names: &[usize],
) -> Result<(), AllocError> {
    push_pieces(text, &[verb])?;
    for name in names {
        push_pieces(text, &[b" ", about.name(*name)])?;
    }
    Ok(())
}

/// Puts a line of a lane behind a text, without its margin and its end.
fn push_step(text: &mut Vec<u8>, about: &About<'_>, step: &Step) -> Result<(), AllocError> {
    match step {
        Step::Unpack(variant) => about.push_variant(text, b"unpack ", *variant),
        Step::Configure(names) => push_names(text, about, b"configure", names),
        Step::Deconfigure(names) => push_names(text, about, b"deconfigure", names),
        Step::Remove(names) => push_names(text, about, b"remove", names),
        Step::Build(recipe) => push_pieces(text, &[b"build ", about.recipe_name(*recipe)]),
        Step::Publish(recipe) => push_pieces(text, &[b"publish ", about.recipe_name(*recipe)]),
        Step::Wait(variant) => about.push_variant(text, b"wait ", *variant),
    }
}

/// What a lane may spend: what it costs, where nothing else is wanted.
fn budget_of(about: &About<'_>, number: usize, lane: &Lane) -> u64 {
    match about.lanes.get(number) {
        Some(wanted) => wanted.budget.unwrap_or(lane.cost()),
        None => lane.cost(),
    }
}

/// Puts a lane behind a text.
fn push_lane(
    text: &mut Vec<u8>,
    about: &About<'_>,
    number: usize,
    lane: &Lane,
) -> Result<(), AllocError> {
    let mut digits = Buffer::new();
    let budget = digits.format(budget_of(about, number, lane)).as_bytes();
    let chroot = about.base_name(lane.base());
    push_pieces(
        text,
        &[
            b"lane ",
            about.lane_name(number),
            b" chroot ",
            chroot,
            b" budget ",
            budget,
            b"\n",
        ],
    )?;
    for step in lane.steps() {
        push_pieces(text, &[b"  "])?;
        push_step(text, about, step)?;
        push_pieces(text, &[b"\n"])?;
    }
    push_pieces(text, &[b"end\n"])
}

/// The lines of the refusal of a plan that has too many instructions.
fn refusal_of(about: &About<'_>, found: &Lanes) -> Result<Option<Vec<u8>>, AllocError> {
    let mut count = 0usize;
    for lane in &found.lanes {
        count = count.saturating_add(lane.steps().len());
    }
    if count > MOST_INSTRUCTIONS {
        return Ok(Some(length_note(about.alloc, count)?));
    }
    Ok(None)
}

/// Writes a plan: two comments, and its listing. Gives the lines of a refusal where there are too
/// many instructions.
pub(crate) fn plan_text(
    about: &About<'_>,
    found: &Lanes,
) -> Result<Result<Vec<u8>, Vec<u8>>, AllocError> {
    if let Some(lines) = refusal_of(about, found)? {
        return Ok(Err(lines));
    }
    let mut text = Vec::new(about.alloc);
    push_comments(&mut text, about, found)?;
    push_pieces(&mut text, &[b"plan 1\n"])?;
    for (number, lane) in found.lanes.iter().enumerate() {
        push_lane(&mut text, about, number, lane)?;
    }
    Ok(Ok(text))
}
