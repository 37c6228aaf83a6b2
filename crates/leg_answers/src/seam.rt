//! What is wrong or odd between two legs.

use crate::facts::LegFacts;
use crate::why::{Why, push_why};
use deb_text::push_pieces;
use itoa::Buffer;
use leg_runs::Leg;
use rest_farm::{Item, Items};
use std::alloc::AllocError;

/// Puts a number behind a text.
pub fn push_number(text: &mut Vec<u8>, number: u64) -> Result<(), AllocError> {
    let mut buffer = Buffer::new();
    text.extend_from_slice(buffer.format(number).as_bytes())
}

/// Puts an item behind a text, as `gcc (= 14-1)`.
pub fn push_item(text: &mut Vec<u8>, item: &Item) -> Result<(), AllocError> {
    push_pieces(text, &[item.name(), b" (= ", item.version().text(), b")"])
}

/// Two legs, one after the other: their numbers are that of the second and the one before.
#[derive(Clone, Copy)]
pub struct Seam<'a> {
    pub number: u64,
    pub before: &'a Leg<'a>,
    pub leg: &'a Leg<'a>,
    pub start: &'a LegFacts,
    pub end: &'a LegFacts,
}

fn push_wrong(text: &mut Vec<u8>, number: u64, why: &Why) -> Result<(), AllocError> {
    text.extend_from_slice(b"wrong: leg ")?;
    push_number(text, number)?;
    text.extend_from_slice(b" does not go on from leg ")?;
    push_number(text, number.saturating_sub(1))?;
    text.extend_from_slice(b": ")?;
    push_why(text, why)?;
    text.extend_from_slice(b"\n")
}

fn push_ended(text: &mut Vec<u8>, number: u64, run: &[u8]) -> Result<(), AllocError> {
    text.extend_from_slice(b"wrong: leg ")?;
    push_number(text, number)?;
    push_pieces(text, &[b" is ended by ", run, b"\n"])
}

fn push_open(text: &mut Vec<u8>, number: u64) -> Result<(), AllocError> {
    text.extend_from_slice(b"note: leg ")?;
    push_number(text, number)?;
    text.extend_from_slice(b" is not ended\n")
}

/// Puts a note of an item behind a text.
fn push_note(text: &mut Vec<u8>, item: &Item, said: &[u8], number: u64) -> Result<(), AllocError> {
    text.extend_from_slice(b"note: ")?;
    push_item(text, item)?;
    text.extend_from_slice(said)?;
    push_number(text, number)?;
    text.extend_from_slice(b"\n")
}

fn push_brought(text: &mut Vec<u8>, seam: Seam<'_>) -> Result<(), AllocError> {
    for item in seam.end.at_start.list() {
        if !seam.start.at_end.has_item(item) {
            push_note(
                text,
                item,
                b" came into the archive ahead of leg ",
                seam.number,
            )?;
        }
    }
    Ok(())
}

/// Tells whether the item at a place of a list is the first of its kind there.
pub fn is_first(items: &Items, place: usize) -> bool {
    match items.list().get(place) {
        Some(item) => items.first(item) == Some(place),
        None => false,
    }
}

fn push_withdrawn(text: &mut Vec<u8>, seam: Seam<'_>) -> Result<(), AllocError> {
    let gone = &seam.leg.said.gone;
    for place in 0..gone.list().len() {
        let item = &gone.list()[place];
        if seam.start.at_end.has_item(item) && is_first(gone, place) {
            push_note(text, item, b" was withdrawn ahead of leg ", seam.number)?;
        }
    }
    Ok(())
}

/// Puts behind a text which run has ended the leg before, if one has, and whether that is another.
fn push_end(text: &mut Vec<u8>, seam: Seam<'_>, is_next: bool) -> Result<(), AllocError> {
    let before = seam.number.saturating_sub(1);
    match seam.before.next_run {
        Some(run) if !is_next => push_ended(text, before, run),
        Some(_) => Ok(()),
        None => push_open(text, before),
    }
}

/// Puts behind a text what is wrong and what is odd between two legs: why the second one does not go
/// on, if it does not, and whether it is the run that has ended the first one, if one has.
pub fn push_seam(
    text: &mut Vec<u8>,
    seam: Seam<'_>,
    why: Option<&Why>,
    is_next: bool,
) -> Result<(), AllocError> {
    if let Some(why) = why {
        push_wrong(text, seam.number, why)?;
    }
    push_end(text, seam, is_next)?;
    push_brought(text, seam)?;
    push_withdrawn(text, seam)
}
