//! Members of objects, put behind a text. Their values are written at once, since a list of them all
//! would take many times the memory of the text, and times may be greater than the numbers of such a
//! list.

use crate::{Facts, TimedPlan};
use deb_text::push_pieces;
use shown_text::text_value;
use std::alloc::{AllocError, Global};
use timed_run::Event;

/// A timed run, what it shows, and the names of its lanes as JSON.
#[derive(Clone, Copy)]
pub(crate) struct Shown<'a> {
    pub(crate) run: &'a TimedPlan<'a>,
    pub(crate) facts: &'a Facts,
    pub(crate) names: &'a [Vec<u8>],
}

/// Gives a text as JSON has it.
pub(crate) fn quoted(alloc: Global, text: &[u8]) -> Result<Vec<u8>, AllocError> {
    text_value(alloc, text)?.to_vec(alloc)
}

/// Puts a name, in quotes and with what stands around it, and a text behind another.
pub(crate) fn push_text(
    alloc: Global,
    text: &mut Vec<u8>,
    name: &[u8],
    value: &[u8],
) -> Result<(), AllocError> {
    let value = quoted(alloc, value)?;
    push_pieces(text, &[name, &value])
}

/// The number of an event's instruction, counted from 1.
pub(crate) fn instruction_number(event: &Event) -> u128 {
    u128::from(event.place).saturating_add(1)
}

impl<'a> Shown<'a> {
    /// The name of a lane as JSON has it.
    pub(crate) fn name(&self, lane: usize) -> &'a [u8] {
        match self.names.get(lane) {
            Some(name) => name.as_slice(),
            None => b"\"\"",
        }
    }
}
