//! Bytes that do not print, as tables spell them.
//!
//! `\t`, `\n` and `\r` are a tab, a newline and a carriage return; `\[N]` is the byte of that
//! number, and `\{N}` makes the byte before it stand N times in all. `""` is the empty text.

use deb_text::{cut_at_first, read_number};
use std::alloc::{AllocError, Global};

/// The text that a column spells.
pub fn unescaped(alloc: Global, column: &[u8]) -> Result<Vec<u8>, AllocError> {
    let mut text = Vec::new(alloc);
    if column == b"\"\"".as_slice() {
        return Ok(text);
    }
    for (place, piece) in column.split(|b| *b == b'\\').enumerate() {
        if place == 0 {
            text.extend_from_slice(piece)?;
        } else {
            push_escaped(&mut text, piece)?;
        }
    }
    Ok(text)
}

/// Adds what stands behind a backslash.
fn push_escaped(text: &mut Vec<u8>, piece: &[u8]) -> Result<(), AllocError> {
    match piece {
        [b't', rest @ ..] => push_both(text, b'\t', rest),
        [b'n', rest @ ..] => push_both(text, b'\n', rest),
        [b'r', rest @ ..] => push_both(text, b'\r', rest),
        [b'[', rest @ ..] => push_numbered(text, rest),
        [b'{', rest @ ..] => push_again(text, rest),
        _ => push_both(text, b'\\', piece),
    }
}

fn push_both(text: &mut Vec<u8>, byte: u8, rest: &[u8]) -> Result<(), AllocError> {
    text.push(byte)?;
    text.extend_from_slice(rest)?;
    Ok(())
}

/// Adds the byte of a number, and what stands behind the bracket.
fn push_numbered(text: &mut Vec<u8>, piece: &[u8]) -> Result<(), AllocError> {
    let (digits, rest) = cut_at_first(b']', piece).unwrap_or((b"", piece));
    let byte = read_number(digits).unwrap_or(0).min(255) as u8;
    push_both(text, byte, rest)
}

/// Makes the last byte stand as often as a number says, and adds what stands behind the brace.
fn push_again(text: &mut Vec<u8>, piece: &[u8]) -> Result<(), AllocError> {
    let (digits, rest) = cut_at_first(b'}', piece).unwrap_or((b"", piece));
    let more = read_number(digits).unwrap_or(1).saturating_sub(1) as usize;
    let byte = text.last().copied().unwrap_or(b' ');
    text.resize(text.len().saturating_add(more), byte)?;
    text.extend_from_slice(rest)?;
    Ok(())
}
