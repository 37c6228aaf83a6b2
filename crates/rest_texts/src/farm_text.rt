//! The farm text of the farm that goes on.

use crate::archives::Archives;
use crate::control::push_block;
use crate::lists::{push_list, push_some};
use crate::packages::{Farm, HEAD};
use crate::settled::Settled;
use crate::wanted::RECIPE;
use deb_text::push_pieces;
use rest_farm::{Fate, Items, Name};
use std::alloc::{AllocError, Global};

/// The fields of the first paragraph that `after` writes.
const OWN: [&[u8]; 5] = [b"Archive", b"After", b"Done", b"Pending", b"Withdrawn"];

/// The fields of a recipe that another value takes the place of once it is built.
const COSTS: [&[u8]; 3] = [b"Mode", b"Steps", b"Scratch"];

/// What the first paragraph says of the run: its name and the digest of its journal; its archive;
/// and what open publishes may have put into that.
#[derive(Clone, Copy)]
pub struct Origin<'a> {
    pub run: &'a [u8],
    pub sum: &'a [u8],
    pub archives: &'a Archives,
    pub pending: &'a Items,
}

fn push_done(text: &mut Vec<u8>, settled: &Settled, names: &[Name]) -> Result<(), AllocError> {
    let mut is_open = false;
    for name in names {
        if !settled.said.wanted_anew.has(name.bytes()) {
            let ahead: &[u8] = if is_open { b" " } else { b"Done: " };
            push_pieces(text, &[ahead, name.bytes()])?;
            is_open = true;
        }
    }
    if is_open {
        text.extend_from_slice(b"\n")?;
    }
    Ok(())
}

fn push_head(
    text: &mut Vec<u8>,
    farm: Farm<'_>,
    of: Origin<'_>,
    settled: &Settled,
) -> Result<(), AllocError> {
    push_block(text, farm.text.block(0), &OWN)?;
    push_pieces(text, &[b"After: ", of.run, b" ", of.sum, b"\n"])?;
    push_done(text, settled, settled.published.list())?;
    push_some(text, b"Pending", of.pending.list())?;
    push_some(text, b"Withdrawn", of.archives.gone.list())?;
    push_list(text, b"Archive", of.archives.archive.list())
}

/// Puts the lines of a recipe behind a text, if it is left.
fn push_recipe(text: &mut Vec<u8>, lines: &[&[u8]], fate: Fate) -> Result<(), AllocError> {
    if !fate.is_left() {
        return Ok(());
    }
    text.extend_from_slice(b"\n")?;
    if !fate.is_built() {
        return push_block(text, lines, &[]);
    }
    push_block(text, lines, &COSTS)?;
    text.extend_from_slice(b"Mode: built\nSteps: 0\n")
}

/// The farm text of the farm that goes on: the recipes that are left, and all else of the given one.
pub fn farm_text(
    alloc: Global,
    farm: Farm<'_>,
    of: Origin<'_>,
    settled: &Settled,
) -> Result<Vec<u8>, AllocError> {
    let mut text = Vec::from_slice(alloc, HEAD)?;
    push_head(&mut text, farm, of, settled)?;
    let mut place = 0usize;
    for number in 1..farm.text.count() {
        let lines = farm.text.block(number);
        if farm.text.value(number, RECIPE).is_some() {
            push_recipe(&mut text, lines, settled.fate(place))?;
            place = place.saturating_add(1);
        } else {
            text.extend_from_slice(b"\n")?;
            push_block(&mut text, lines, &[])?;
        }
    }
    Ok(text)
}
