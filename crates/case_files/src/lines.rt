//! The lines of texts and answers as case files write them.

ghost use Rattle.std.specs.Prelude.{◌<◌, IfSome, length};

use crate::cases::Given;
use deb_text::{cut_at_first, read_number};
use std::alloc::{AllocError, AllocFailed};
use thiserror::Error;

/// Why a line of a case file cannot be taken.
#[derive(Drop, Debug, Error)]
pub enum LineFault {
    /// A case or a given text begins, or the file ends, before the text above has its `---`.
    #[error("no line --- behind a text")]
    NoEnd,
    /// No text of the name behind `\\^` is given above.
    #[error("no text of this name is given")]
    NotGiven,
    /// No count and line stand behind `\\*`.
    #[error("no count and line behind \\*")]
    NoCount,
    /// Memory ran out.
    #[error("out of memory")]
    Memory,
}

impl From<AllocError> for LineFault {
    fn from(_error: AllocError) -> LineFault {
        LineFault::Memory
    }
}

impl<T: Drop> From<AllocFailed<T>> for LineFault {
    fn from(_error: AllocFailed<T>) -> LineFault {
        LineFault::Memory
    }
}

/// A piece of a line.
enum Piece {
    Byte(u8),
    /// Where a line stands several times, which of these it is, from 1.
    Number,
    /// The line has no newline.
    NoNewline,
}

/// What a hexadecimal digit stands for.
fn hexadecimal(digit: u8) -> u8
    ensures { result < 16 }
{
    match digit {
        b'0'..=b'9' => digit - b'0',
        b'a'..=b'f' => digit - b'a' + 10,
        _ => 0,
    }
}

/// What a backslash and this byte stand for.
fn escaped(byte: u8) -> Piece {
    match byte {
        b'n' => Piece::Byte(b'\n'),
        b't' => Piece::Byte(b'\t'),
        b'r' => Piece::Byte(b'\r'),
        b'#' => Piece::Number,
        _ => Piece::Byte(byte),
    }
}

/// Takes the first piece of a line, and gives what stands behind it too.
fn next_piece(line: &[u8]) -> Option<(Piece, &[u8])>
    ensures shorter { IfSome result (λ cut. length cut.1.now < length line.now) }
{
    match line {
        [] => None,
        [b'\\'] => Some((Piece::NoNewline, &[])),
        [b'\\', b'x', high, low, rest @ ..] => {
            Some((
                Piece::Byte(hexadecimal(*high) * 16 + hexadecimal(*low)),
                rest,
            ))
        }
        [b'\\', byte, rest @ ..] => Some((escaped(*byte), rest)),
        [byte, rest @ ..] => Some((Piece::Byte(*byte), rest)),
    }
}

/// Puts what a line stands for behind a text.
fn push_pieces(text: &mut Vec<u8>, line: &[u8], number: u64) -> Result<(), AllocError> {
    let mut rest = line;
    while let Some((piece, behind)) = next_piece(rest) {
        match piece {
            Piece::Byte(byte) => text.extend_from_slice(&[byte])?,
            Piece::Number => push_number(text, number)?,
            Piece::NoNewline => return Ok(()),
        }
        rest = behind;
    }
    text.extend_from_slice(b"\n")
}

fn push_number(text: &mut Vec<u8>, number: u64) -> Result<(), AllocError> {
    let digits = format!(in *text.allocator(); "{number}")?;
    text.extend_from_slice(digits.as_bytes())
}

/// A count and a line that stands so often.
fn push_repeated(text: &mut Vec<u8>, repeated: &[u8]) -> Result<(), LineFault> {
    let (count, line) = cut_at_first(b' ', repeated).ok_or(LineFault::NoCount)?;
    let count = read_number(count).ok_or(LineFault::NoCount)?;
    for number in 0..count {
        push_pieces(text, line, number + 1)?;
    }
    Ok(())
}

/// The given text of this name.
fn push_given(text: &mut Vec<u8>, givens: &[Given], name: &[u8]) -> Result<(), LineFault> {
    for given in givens {
        if given.name == name {
            text.extend_from_slice(&given.text)?;
            return Ok(());
        }
    }
    Err(LineFault::NotGiven)
}

/// Puts what a line of a case file stands for behind a text.
///
/// # Errors
///
/// The fault of the line.
pub fn push_line(text: &mut Vec<u8>, givens: &[Given], line: &[u8]) -> Result<(), LineFault> {
    if let Some(name) = line.strip_prefix(b"\\^") {
        return push_given(text, givens, name);
    }
    if let Some(repeated) = line.strip_prefix(b"\\*") {
        return push_repeated(text, repeated);
    }
    push_pieces(text, line, 0)?;
    Ok(())
}
