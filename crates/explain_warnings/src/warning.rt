//! The line of a warning.

use crate::tally::Mentions;
use deb_text::push_pieces;
use explain_faults::Piece::{Number, Words};
use explain_faults::{Piece, Pushed, say};

/// Puts the line of a warning behind others, with the piece of this number in the place of each `%`
/// and a digit of its words.
pub fn push_warning(lines: &mut Vec<u8>, words: &[u8], pieces: &[Piece<'_>]) -> Pushed {
    push_pieces(lines, &[b"warning: "])?;
    say(lines, words, pieces)?;
    push_pieces(lines, &[b"\n"])
}

/// Puts the line of a warning of a word behind others, in the first of two ways where it is named
/// once, and in the second where more often: with the line that names it first for `%0`, the word
/// for `%1`, and how often it is named for `%2`.
pub fn push_named(
    lines: &mut Vec<u8>,
    ways: [&'static [u8]; 2],
    word: &[u8],
    named: Mentions,
) -> Pushed {
    let [once, often] = ways;
    let pieces = [Number(named.first), Words(word), Number(named.count)];
    let way = if named.count < 2 { once } else { often };
    push_warning(lines, way, &pieces)
}
