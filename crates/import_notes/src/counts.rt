//! Lines on how much was taken.

use crate::refusals::first_line;
use deb_text::push_pieces;
use import_farm::{COUNTS, Count, push_number};
use std::alloc::{AllocError, Global};

/// What is counted.
const COUNTED: [&[u8]; COUNTS] = [
    b"names",
    b"variants",
    b"sources",
    b"recipes",
    b"base chroots",
    b"bytes of a text",
    b"relation entries",
];

/// Puts a count and its limit, if it has one, behind a text.
fn push_count(text: &mut Vec<u8>, count: &Count, between: &[u8]) -> Result<(), AllocError> {
    push_number(text, count.count as u64)?;
    if let Some(most) = count.most {
        text.extend_from_slice(between)?;
        push_number(text, most as u64)?;
    }
    text.extend_from_slice(b"\n")
}

/// The lines of a refusal that names the limits that are passed.
pub fn over_lines(alloc: Global, counts: &[Count; COUNTS]) -> Result<Vec<u8>, AllocError> {
    let mut text = first_line(alloc, 710, b"wish", 0)?;
    for (what, count) in COUNTED.iter().zip(counts) {
        if count.is_over() {
            push_pieces(&mut text, &[b"  ", *what, b": "])?;
            push_count(&mut text, count, b", at most ")?;
        }
    }
    Ok(text)
}

/// Puts a line for each count behind a text.
pub fn push_counts(text: &mut Vec<u8>, counts: &[Count; COUNTS]) -> Result<(), AllocError> {
    for (what, count) in COUNTED.iter().zip(counts) {
        push_pieces(text, &[*what, b" "])?;
        push_count(text, count, b" of ")?;
    }
    Ok(())
}
