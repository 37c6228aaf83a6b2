//! The lines of a story, leg by leg.

use crate::facts::LegFacts;
use crate::seam::{is_first, push_item, push_number};
use crate::told::{Told, told_of};
use deb_text::push_pieces;
use leg_runs::Leg;
use rest_farm::{Item, Items};
use std::alloc::{AllocError, Global};

/// What is kept of a leg that is told: its facts, and what its farm withdraws.
#[derive(Drop)]
pub struct Kept {
    pub facts: LegFacts,
    pub gone: Items,
}

/// What is told of some legs by now, and how many things they have published.
#[derive(Drop)]
pub struct Lines {
    pub text: Vec<u8>,
    pub kept: Vec<Kept>,
    pub count: u64,
}

impl Lines {
    /// No lines.
    pub fn new(alloc: Global) -> Lines {
        Lines {
            text: Vec::new(alloc),
            kept: Vec::new(alloc),
            count: 0,
        }
    }

    /// The number of the leg that is told next.
    pub fn number(&self) -> u64 {
        self.kept.len() as u64
    }
}

/// Puts the line of a leg behind a text.
pub fn push_leg(
    text: &mut Vec<u8>,
    number: u64,
    leg: &Leg<'_>,
    facts: &LegFacts,
) -> Result<(), AllocError> {
    text.extend_from_slice(b"leg ")?;
    push_number(text, number)?;
    push_pieces(text, &[b" run ", leg.said.name.as_slice(), b" published "])?;
    push_number(text, facts.recipes)?;
    text.extend_from_slice(b", archive ")?;
    push_number(text, facts.at_start.list().len() as u64)?;
    text.extend_from_slice(b" to ")?;
    push_number(text, facts.at_end.list().len() as u64)?;
    text.extend_from_slice(b"\n")
}

fn push_told(lines: &mut Lines, leg: &Leg<'_>, told: &Told) -> Result<(), AllocError> {
    let number = lines.number();
    let farm = leg.follower.core.universe();
    let count = lines.count;
    let text = &mut lines.text;
    text.extend_from_slice(b"  published ")?;
    push_number(text, count)?;
    text.extend_from_slice(b" leg ")?;
    push_number(text, number)?;
    let recipe = farm.recipe_name(told.recipe);
    let item = &told.item;
    push_pieces(text, &[b" recipe ", recipe, b" ", item.name()])?;
    push_pieces(text, &[b" ", item.version().text(), b"\n"])?;
    lines.count = count.saturating_add(1);
    Ok(())
}

/// The first leg told by now that has published an item.
fn published_by(kept: &[Kept], item: &Item) -> Option<u64> {
    for number in 0..kept.len() {
        if kept[number].facts.published.has_item(item) {
            return Some(number as u64);
        }
    }
    None
}

fn push_twice(text: &mut Vec<u8>, item: &Item, number: u64) -> Result<(), AllocError> {
    text.extend_from_slice(b"wrong: ")?;
    push_item(text, item)?;
    text.extend_from_slice(b" is published by leg ")?;
    push_number(text, number)?;
    text.extend_from_slice(b" too\n")
}

/// Puts behind the lines what was published, and tells whether no leg before has published it.
fn push_one(lines: &mut Lines, leg: &Leg<'_>, told: &Told) -> Result<bool, AllocError> {
    push_told(lines, leg, told)?;
    match published_by(&lines.kept, &told.item) {
        Some(number) => {
            push_twice(&mut lines.text, &told.item, number)?;
            Ok(false)
        }
        None => Ok(true),
    }
}

/// Puts behind the lines what a leg has published, and tells whether no leg before has published any
/// of that.
pub fn push_published(alloc: Global, lines: &mut Lines, leg: &Leg<'_>) -> Result<bool, AllocError> {
    let core = &leg.follower.core;
    let mut is_once = true;
    for publication in core.history() {
        if let Some(told) = told_of(alloc, core.universe(), publication.variant)? {
            let is_new = push_one(lines, leg, &told)?;
            is_once = is_once && is_new;
        }
    }
    Ok(is_once)
}

fn push_back(
    text: &mut Vec<u8>,
    item: &Item,
    number: usize,
    later: usize,
) -> Result<(), AllocError> {
    text.extend_from_slice(b"wrong: ")?;
    push_item(text, item)?;
    text.extend_from_slice(b" was withdrawn ahead of leg ")?;
    push_number(text, number as u64)?;
    text.extend_from_slice(b", and leg ")?;
    push_number(text, later as u64)?;
    text.extend_from_slice(b" has it\n")
}

/// Puts behind a text what was withdrawn ahead of the leg of a number, and a later one has at its
/// end; tells whether there is nothing.
fn push_kept(
    text: &mut Vec<u8>,
    gone: &Items,
    at_end: &Items,
    numbers: (usize, usize),
) -> Result<bool, AllocError> {
    let mut is_out = true;
    for place in 0..gone.list().len() {
        let item = &gone.list()[place];
        if at_end.has_item(item) && is_first(gone, place) {
            push_back(text, item, numbers.0, numbers.1)?;
            is_out = false;
        }
    }
    Ok(is_out)
}

/// Puts behind a text what was withdrawn ahead of some leg, and that one or a later one has at its
/// end; tells whether there is nothing.
pub fn push_gone(text: &mut Vec<u8>, kept: &[Kept]) -> Result<bool, AllocError> {
    let mut is_right = true;
    for number in 0..kept.len() {
        for later in number..kept.len() {
            let at_end = &kept[later].facts.at_end;
            let is_out = push_kept(text, &kept[number].gone, at_end, (number, later))?;
            is_right = is_right && is_out;
        }
    }
    Ok(is_right)
}

/// Puts the last line behind a text: whether the last leg has come to its end.
pub fn push_last(text: &mut Vec<u8>, kept: &[Kept]) -> Result<(), AllocError> {
    let left = match kept.last() {
        Some(leg) => leg.facts.lanes_left,
        None => 0,
    };
    if left == 0 {
        return text.extend_from_slice(b"finished\n");
    }
    text.extend_from_slice(b"lanes that are not at their end ")?;
    push_number(text, left)?;
    text.extend_from_slice(b"\n")
}
