//! Notes on the fields of a wish that are passed over.

use deb_stanza::Paragraphs;
use deb_text::{cut_at_first, is_blank_line, next_line, push_pieces};
use import_farm::push_number;
use import_wish::leaves_choice;
use std::alloc::{AllocError, Global};

const HEAD: [&[u8]; 7] = [
    b"architecture-names",
    b"archive",
    b"profiles",
    b"mode",
    b"targets",
    b"stages",
    b"finish",
];

const RECIPE: [&[u8]; 7] = [
    b"recipe",
    b"source",
    b"profiles",
    b"mode",
    b"steps",
    b"scratch",
    b"outputs",
];

/// Those of a recipe `*`.
const EVERY: [&[u8]; 3] = [b"recipe", b"profiles", b"mode"];

const CHROOT: [&[u8]; 3] = [b"chroot", b"capacity", b"packages"];

/// The fields of the paragraph of a number.
fn fields_of(paragraphs: &Paragraphs, number: usize) -> &'static [&'static [u8]] {
    if number == 0 || number >= paragraphs.count() {
        return &HEAD;
    }
    match paragraphs.field(number, b"Recipe") {
        Some(b"*") => &EVERY,
        Some(_) => &RECIPE,
        None => &CHROOT,
    }
}

fn is_known(fields: &[&[u8]], name: &[u8]) -> bool {
    fields.iter().any(|field| name.eq_ignore_ascii_case(field))
}

/// The name of the field that begins at a line, if one does.
fn name_at(line: &[u8]) -> Option<&[u8]> {
    match line {
        [] | [b' ' | b'\t' | b'#', ..] => None,
        _ => match cut_at_first(b':', line) {
            Some((name, _)) => Some(name),
            None => None,
        },
    }
}

fn push_note(alloc: Global, text: &mut Vec<u8>, line: u32, name: &[u8]) -> Result<(), AllocError> {
    text.extend_from_slice(b"note: wish line ")?;
    push_number(text, u64::from(line))?;
    let mut lower = Vec::from_slice(alloc, name)?;
    lower.make_ascii_lowercase();
    push_pieces(
        text,
        &[
            b": the field ",
            &lower,
            b" is not known, and is passed over\n",
        ],
    )
}

/// A paragraph of the wish that lines are in: its number, and whether the next field is the first
/// of another one.
#[derive(Clone, Copy)]
struct At {
    number: usize,
    is_ahead: bool,
}

/// The paragraph that a line is in, behind others.
fn next_at(at: At, line: &[u8], name: Option<&[u8]>) -> At {
    if is_blank_line(line) {
        return At {
            number: at.number,
            is_ahead: true,
        };
    }
    if name.is_none() || !at.is_ahead {
        return at;
    }
    At {
        number: at.number.saturating_add(1),
        is_ahead: false,
    }
}

/// Puts a note on the field of a name behind a text, where its paragraph does not know it.
fn push_field(
    alloc: Global,
    text: &mut Vec<u8>,
    paragraphs: &Paragraphs,
    number: usize,
    name: &[u8],
) -> Result<(), AllocError> {
    if number >= paragraphs.count() || is_known(fields_of(paragraphs, number), name) {
        return Ok(());
    }
    push_note(alloc, text, paragraphs.line_of(number), name)
}

/// Puts a note on a field that is for wishes that leave a choice behind a text, where the first
/// paragraph has it.
fn push_for_targets(
    text: &mut Vec<u8>,
    paragraphs: &Paragraphs,
    field: &[u8],
    name: &[u8],
) -> Result<(), AllocError> {
    if paragraphs.count() == 0 || paragraphs.field(0, field).is_none() {
        return Ok(());
    }
    text.extend_from_slice(b"note: wish line ")?;
    push_number(text, u64::from(paragraphs.line_of(0)))?;
    push_pieces(
        text,
        &[
            b": the field ",
            name,
            b" is for targets or a recipe *, and is passed over\n",
        ],
    )
}

/// Puts a note on each field of a wish that is passed over behind a text: those that are not known, and
/// those that are for a choice, where the wish leaves none.
pub fn push_wish_notes(
    alloc: Global,
    text: &mut Vec<u8>,
    wish: &[u8],
    paragraphs: &Paragraphs,
) -> Result<(), AllocError> {
    push_unknown(alloc, text, wish, paragraphs)?;
    if leaves_choice(paragraphs) {
        return Ok(());
    }
    push_for_targets(text, paragraphs, b"Stages", b"stages")?;
    push_for_targets(text, paragraphs, b"Finish", b"finish")
}

/// Puts a note on each field that is not known behind a text.
fn push_unknown(
    alloc: Global,
    text: &mut Vec<u8>,
    wish: &[u8],
    paragraphs: &Paragraphs,
) -> Result<(), AllocError> {
    let mut at = At {
        number: 0,
        is_ahead: true,
    };
    let mut rest = wish;
    while let Some((line, behind)) = next_line(rest) {
        let name = name_at(line);
        at = next_at(at, line, name);
        if let Some(name) = name {
            push_field(alloc, text, paragraphs, at.number.saturating_sub(1), name)?;
        }
        rest = behind;
    }
    Ok(())
}
