//! What is said of a fault of a wish, of an index, or of a text that was made.

use crate::refusals::first_line;
use deb_text::files::{FARM, PACKAGES, SOURCES};
use deb_text::{Fault, push_pieces};
use explain_faults::Piece::{Escaped, Number, Words};
use explain_faults::{line_at, push_fault_note, say};
use import_farm::{Inputs, NamedText};
use plan_reader::file_name;
use shown_text::shown;
use std::alloc::{AllocError, Global};

/// A text that was given, and the text of a farm that it is like.
#[derive(Clone, Copy)]
struct GivenText<'a> {
    bytes: &'a [u8],
    file: u8,
}

/// The text of a name, as one like that text of a farm.
fn text_of<'a>(texts: &[NamedText<'a>], name: &[u8], file: u8) -> Option<GivenText<'a>> {
    for text in texts {
        if text.name.as_bytes() == name {
            let bytes = text.bytes;
            return Some(GivenText { bytes, file });
        }
    }
    None
}

/// The text of a name.
fn given_text<'a>(inputs: Inputs<'a>, name: &[u8]) -> GivenText<'a> {
    if name == b"wish".as_slice() {
        return GivenText {
            bytes: inputs.wish,
            file: FARM,
        };
    }
    if let Some(text) = text_of(inputs.packages, name, PACKAGES) {
        return text;
    }
    if let Some(text) = text_of(inputs.archive, name, PACKAGES) {
        return text;
    }
    let file = SOURCES;
    let bytes = b"";
    text_of(inputs.sources, name, SOURCES).unwrap_or(GivenText { bytes, file })
}

/// What was expected of a wish or of an index, where that is not what a text of a farm is to have.
fn own_sentence(file: u8, code: u16) -> Option<&'static [u8]> {
    match code {
        105 if file != FARM => Some(
            b"expected an index of at most 1,073,741,824 bytes, and each paragraph of at most 67,108,864",
        ),
        205 if file == FARM => Some(b"expected names of packages in `Outputs`, without versions"),
        206 if file == FARM => {
            Some(b"expected one source in `Source`, as `gcc` or `gcc (= 14-1)`")
        }
        208 if file == FARM => Some(b"expected at least one item in this field"),
        _ => None,
    }
}

/// Puts the line of a text at the end of lines.
fn push_line<'a>(
    lines: &mut Vec<u8>,
    name: &'a [u8],
    number: u32,
    line: &'a [u8],
) -> Result<(), AllocError> {
    let pieces = [Words(name), Number(u64::from(number)), Escaped(shown(line))];
    say(lines, b"%0 line %1: %2\n", &pieces)
}

/// Puts the line of a text that was given, what was expected there, and what the text looks like at
/// the end of lines.
fn push_given(
    alloc: Global,
    lines: &mut Vec<u8>,
    name: &[u8],
    text: GivenText,
    fault: Fault,
) -> Result<(), AllocError> {
    if let Some(expected) = own_sentence(text.file, fault.code) {
        if let Some(line) = line_at(text.bytes, fault.line) {
            push_line(lines, name, fault.line, line)?;
        }
        return say(lines, b"  %0\n", &[Words(expected)]);
    }
    let mut note = Vec::new(alloc);
    push_fault_note(alloc, &mut note, &fault, text.bytes)?;
    // the note calls the text as it is called in a farm
    match note.strip_prefix(file_name(fault.file).as_bytes()) {
        Some(rest) => push_pieces(lines, &[name, rest]),
        None => lines.extend_from_slice(&note),
    }
}

/// The lines of the refusal of a text that was given.
pub fn given_lines(
    alloc: Global,
    inputs: Inputs,
    name: &[u8],
    fault: &Fault,
) -> Result<Vec<u8>, AllocError> {
    let mut lines = first_line(alloc, fault.code, name, fault.line)?;
    let text = given_text(inputs, name);
    let fault = Fault::place(text.file, fault.line, fault.code);
    push_given(alloc, &mut lines, name, text, fault)?;
    Ok(lines)
}

/// The lines of the refusal of a text that was made, by its line at fault.
pub fn made_lines(alloc: Global, fault: &Fault, line: &[u8]) -> Result<Vec<u8>, AllocError> {
    let name = file_name(fault.file).as_bytes();
    let mut lines = first_line(alloc, fault.code, name, fault.line)?;
    if fault.line > 0 {
        push_line(&mut lines, name, fault.line, line)?;
    }
    push_fault_note(
        alloc,
        &mut lines,
        &Fault::place(fault.file, 0, fault.code),
        b"",
    )?;
    Ok(lines)
}
