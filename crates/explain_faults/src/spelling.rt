//! Lines of notes: words, and what stands in their places.

use deb_text::push_pieces;
use itoa::Buffer;
use shown_text::{push_escaped, push_value};
use std::alloc::AllocError;

/// Whether something was put behind others; else memory was refused.
pub type Pushed = Result<(), AllocError>;

/// What stands in the place of `%0`, `%1` and so on.
#[derive(Clone, Copy)]
pub enum Piece<'a> {
    Words(&'a [u8]),
    Number(u64),
    /// A value, an item or a word, as notes show it.
    Value(&'a [u8]),
    /// Bytes as they are, but for those that are escaped.
    Escaped(&'a [u8]),
}

fn push_piece(text: &mut Vec<u8>, piece: Piece<'_>) -> Pushed {
    match piece {
        Piece::Words(words) => push_pieces(text, &[words]),
        Piece::Number(number) => {
            let mut digits = Buffer::new();
            push_pieces(text, &[digits.format(number).as_bytes()])
        }
        Piece::Value(value) => push_value(text, value),
        Piece::Escaped(bytes) => push_escaped(text, bytes),
    }
}

/// Puts words behind a text, with the piece of this number in the place of each `%` and a digit.
pub fn say(text: &mut Vec<u8>, words: &[u8], pieces: &[Piece<'_>]) -> Pushed {
    let mut is_place = false;
    for byte in words {
        if is_place {
            is_place = false;
            if let Some(piece) = pieces.get(byte.wrapping_sub(b'0') as usize) {
                push_piece(text, *piece)?;
            }
        } else if *byte == b'%' {
            is_place = true;
        } else {
            text.push(*byte)?;
        }
    }
    Ok(())
}
