//! Notes on a wish for two architectures: fields that are passed over, and recipes without the
//! profile `cross`.

use crate::recipe::CrossRecipe;
use crate::wish::CrossWish;
use cross_laws::types::Side;
use deb_stanza::Paragraphs;
use deb_text::{cut_at_first, is_blank_line, next_line, next_word, push_pieces};
use itoa::Buffer;
use std::alloc::{AllocError, Global};

const HEAD: [&[u8]; 6] = [
    b"architecture-names",
    b"build-architecture",
    b"build-essential",
    b"archive",
    b"profiles",
    b"mode",
];

const RECIPE: [&[u8]; 8] = [
    b"recipe",
    b"source",
    b"host-architecture",
    b"profiles",
    b"mode",
    b"steps",
    b"scratch",
    b"outputs",
];

const CHROOT: [&[u8]; 3] = [b"chroot", b"capacity", b"packages"];

/// The fields of the paragraph of a number.
fn fields_of(paragraphs: &Paragraphs, number: usize) -> &'static [&'static [u8]] {
    if number == 0 || number >= paragraphs.count() {
        return &HEAD;
    }
    if paragraphs.field(number, b"Recipe").is_some() {
        return &RECIPE;
    }
    &CHROOT
}

fn is_known(fields: &[&[u8]], name: &[u8]) -> bool {
    fields.iter().any(|field| name.eq_ignore_ascii_case(field))
}

/// The name of the field that begins at a line, if one does.
fn name_at(line: &[u8]) -> Option<&[u8]> {
    match line {
        [] | [b' ' | b'\t' | b'#', ..] => None,
        _ => match cut_at_first(b':', line) {
            Some((name, _)) => Some(name),
            None => None,
        },
    }
}

/// Puts what stands ahead of a note on a line behind a text.
fn push_line(text: &mut Vec<u8>, line: u32) -> Result<(), AllocError> {
    text.extend_from_slice(b"note: wish line ")?;
    text.extend_from_slice(Buffer::new().format(u64::from(line)).as_bytes())?;
    text.extend_from_slice(b": ")
}

fn push_field(
    alloc: Global,
    text: &mut Vec<u8>,
    paragraphs: &Paragraphs,
    number: usize,
    name: &[u8],
) -> Result<(), AllocError> {
    if number >= paragraphs.count() || is_known(fields_of(paragraphs, number), name) {
        return Ok(());
    }
    push_line(text, paragraphs.line_of(number))?;
    let mut lower = Vec::from_slice(alloc, name)?;
    lower.make_ascii_lowercase();
    push_pieces(
        text,
        &[
            b"the field ",
            &lower,
            b" is not known, and is passed over\n",
        ],
    )
}

fn has_cross(profiles: &[u8]) -> bool {
    let mut rest = profiles;
    while let Some((word, behind)) = next_word(rest) {
        if word == b"cross".as_slice() {
            return true;
        }
        rest = behind;
    }
    false
}

fn is_for_host(recipe: &CrossRecipe) -> bool {
    match recipe.side {
        Side::Build => false,
        Side::Host => true,
    }
}

/// Puts a note on the recipe at a line behind a text, where it is for the host without the profile
/// `cross`.
fn push_lack(text: &mut Vec<u8>, wish: &CrossWish, line: u32) -> Result<(), AllocError> {
    for recipe in &wish.items.recipes {
        if recipe.native.line == line && is_for_host(recipe) && !has_cross(&recipe.profiles) {
            push_line(text, line)?;
            return text.extend_from_slice(b"the profiles lack cross\n");
        }
    }
    Ok(())
}

/// A paragraph that lines are in: its number from 1 on, and whether the next field is the first of
/// another one.
#[derive(Clone, Copy)]
struct At {
    number: usize,
    is_ahead: bool,
}

/// Puts the note on the recipe that a paragraph is behind a text.
fn push_end(
    text: &mut Vec<u8>,
    wish: &CrossWish,
    paragraphs: &Paragraphs,
    at: At,
) -> Result<(), AllocError> {
    let number = at.number.saturating_sub(1);
    if at.is_ahead || number >= paragraphs.count() {
        return Ok(());
    }
    push_lack(text, wish, paragraphs.line_of(number))
}

/// The paragraph that a line with a field is in, behind others.
fn next_at(at: At) -> At {
    if at.is_ahead {
        return At {
            number: at.number.saturating_add(1),
            is_ahead: false,
        };
    }
    at
}

/// Puts notes on the paragraphs of a wish behind a text, in their order.
pub fn push_wish_notes(
    alloc: Global,
    text: &mut Vec<u8>,
    given: &[u8],
    wish: &CrossWish,
    paragraphs: &Paragraphs,
) -> Result<(), AllocError> {
    let mut at = At {
        number: 0,
        is_ahead: true,
    };
    let mut rest = given;
    while let Some((line, behind)) = next_line(rest) {
        if is_blank_line(line) {
            push_end(text, wish, paragraphs, at)?;
            at.is_ahead = true;
        } else if let Some(name) = name_at(line) {
            at = next_at(at);
            let number = at.number.saturating_sub(1);
            push_field(alloc, text, paragraphs, number, name)?;
        }
        rest = behind;
    }
    push_end(text, wish, paragraphs, at)
}
