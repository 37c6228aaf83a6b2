//! The rows of an encoded paragraph that are no encoded relations.

use cross_laws::types::Side;
use cross_relations::Sides;
use deb_text::{Class, begins_with, cut_at_first, is_comment, next_line, trim};
use std::alloc::AllocError;

/// What is written of a package in place of the given values: its encoded name, the value of
/// Source, its side, and which fields are left out.
#[derive(Drop)]
pub struct Anew {
    pub name: Vec<u8>,
    pub source: Vec<u8>,
    pub side: Side,
    pub is_essential_left_out: bool,
    pub has_named_pre_depends: bool,
    pub has_named_depends: bool,
}

fn is_same_name(a: &[u8], b: &[u8]) -> bool {
    a.eq_ignore_ascii_case(b)
}

fn if_wanted(is_wanted: bool, name: &'static [u8]) -> Option<&'static [u8]> {
    if is_wanted { Some(name) } else { None }
}

/// The name under which a relation field is carried along, if it is one.
fn carried_name(name: &[u8], of: &Anew) -> Option<&'static [u8]> {
    if is_same_name(name, b"Pre-Depends") {
        return if_wanted(of.has_named_pre_depends, b"Given-Pre-Depends");
    }
    if is_same_name(name, b"Depends") {
        return if_wanted(of.has_named_depends, b"Given-Depends");
    }
    if is_same_name(name, b"Conflicts") {
        return Some(b"Given-Conflicts");
    }
    if is_same_name(name, b"Breaks") {
        return Some(b"Given-Breaks");
    }
    if_wanted(is_same_name(name, b"Provides"), b"Given-Provides")
}

/// The name under which a field is copied as it stands, if it is.
fn copied_name(name: &[u8], of: &Anew) -> Option<&'static [u8]> {
    if is_same_name(name, b"Installed-Size") {
        return Some(b"Installed-Size");
    }
    if is_same_name(name, b"Priority") {
        return Some(b"Priority");
    }
    if is_same_name(name, b"Multi-Arch") {
        return Some(b"Multi-Arch");
    }
    if is_same_name(name, b"Essential") {
        return if_wanted(!of.is_essential_left_out, b"Essential");
    }
    carried_name(name, of)
}

/// Puts `NAME: VALUE` behind a text, as a line.
fn push_row(text: &mut Vec<u8>, name: &[u8], value: &[u8]) -> Result<(), AllocError> {
    text.extend_from_slice(name)?;
    text.extend_from_slice(b": ")?;
    text.extend_from_slice(value)?;
    text.extend_from_slice(b"\n")
}

/// Puts a field as it stands behind a text, with the name under which it is copied, if it is, and
/// tells whether it is.
fn push_copied(
    text: &mut Vec<u8>,
    name: Option<&'static [u8]>,
    value: &[u8],
) -> Result<bool, AllocError> {
    let Some(name) = name else {
        return Ok(false);
    };
    text.extend_from_slice(name)?;
    text.extend_from_slice(b":")?;
    text.extend_from_slice(value)?;
    text.extend_from_slice(b"\n")?;
    Ok(true)
}

/// Puts what a field comes to behind a text, of which the first line has this value. The answer
/// tells whether the lines that continue it follow as they stand.
fn push_begun(
    text: &mut Vec<u8>,
    sides: &Sides,
    of: &Anew,
    name: &[u8],
    value: &[u8],
) -> Result<bool, AllocError> {
    if is_same_name(name, b"Package") {
        push_row(text, b"Package", &of.name)?;
        return Ok(false);
    }
    if is_same_name(name, b"Source") {
        push_row(text, b"Source", &of.source)?;
        return Ok(false);
    }
    if is_same_name(name, b"Version") {
        push_row(text, b"Version", trim(value))?;
        return Ok(false);
    }
    if is_same_name(name, b"Architecture") {
        push_architecture(text, sides, of.side)?;
        return Ok(false);
    }
    push_copied(text, copied_name(name, of), value)
}

/// Puts the Architecture of a package of the host behind a text.
fn push_architecture(text: &mut Vec<u8>, sides: &Sides, side: Side) -> Result<(), AllocError> {
    match side {
        Side::Build => Ok(()),
        Side::Host => push_row(text, b"Architecture", sides.host()),
    }
}

/// Puts what a line comes to behind a text. The lines before it are of a field that is copied, or
/// of one that is not; the answer tells the same of this one.
fn push_line(
    text: &mut Vec<u8>,
    sides: &Sides,
    of: &Anew,
    line: &[u8],
    is_copied: bool,
) -> Result<bool, AllocError> {
    if is_comment(line) {
        return Ok(is_copied);
    }
    if begins_with(Class::Space, line) {
        return push_continued(text, line, is_copied);
    }
    match cut_at_first(b':', line) {
        Some((name, value)) => push_begun(text, sides, of, name, value),
        None => Ok(false),
    }
}

/// Puts a line that continues a field behind a text, where the field is copied.
fn push_continued(text: &mut Vec<u8>, line: &[u8], is_copied: bool) -> Result<bool, AllocError> {
    if is_copied {
        text.extend_from_slice(line)?;
        text.extend_from_slice(b"\n")?;
    }
    Ok(is_copied)
}

/// Puts the rows of a paragraph behind a text, in their order, with what is written anew: all but
/// the relations, which are carried along under other names.
pub fn push_rows(
    text: &mut Vec<u8>,
    sides: &Sides,
    of: &Anew,
    block: &[u8],
) -> Result<(), AllocError> {
    let mut is_copied = false;
    let mut rest = block;
    while let Some((line, behind)) = next_line(rest) {
        is_copied = push_line(text, sides, of, line, is_copied)?;
        rest = behind;
    }
    Ok(())
}
