//! A text that is read piece by piece, so that never more than a piece is held.

ghost use Rattle.std.specs.Prelude.{◌≡◌, ◌<◌, ◌≤◌, [], length, IfErr, IfNone, IfOk, IfSome, Ok};
ghost use Rattle.deb_text.specs.Common.{Fails, refusal_of, with_front};
ghost use Rattle.debian_index.specs.Index.{later, left_from};

use crate::blocks::read_block;
use crate::rows::rows_to_blank;
use deb_stanza::{MOST_BYTES, Paragraphs};
use deb_text::Fault;
use std::alloc::Global;
use std::marker::Model;

/// So many bytes a piece has, and those of lines up to a blank one.
const PIECE_BYTES: usize = 65_536;

/// What is left of a text, and the number of its first line. A contract sees what it says.
#[derive(Drop)]
pub struct Pieces<'a> {
    number: u32,
    rest: &'a [u8],
}

impl<'a> Model for Pieces<'a> {
    ghost use Rattle.std.specs.Prelude.{◌+◌, ◌<◌, ◌≤◌, length};
    ghost use Rattle.deb_stanza.specs.declared.error.TheConstants.{MOST_BYTES};
    ghost use Rattle.debian_index.specs.Index.{Left, left_from};

    ghost Value = { Left };

    ghost view = { λ it. left_from it.number it.rest.now };

    ghost invariant = { λ it. (0 < it.number) × (it.number + length it.rest.now ≤ MOST_BYTES + 1) };
}

impl<'a> Pieces<'a> {
    /// All of a text.
    pub fn of(text: &'a [u8]) -> Pieces<'a>
        requires { length text.now ≤ MOST_BYTES }
        ensures { result ≡ left_from 1 text.now }
    {
        Pieces {
            number: 1,
            rest: text,
        }
    }

    /// Reads the next piece: how many lines stand above it, and its paragraphs, which count their
    /// own lines from 1.
    ///
    /// # Errors
    ///
    /// The first fault of the piece, at its line in the text.
    pub fn next(&mut self, alloc: Global) -> Result<Option<(u32, Paragraphs)>, Fault>
        ensures end { IfOk result (λ next. IfNone next (self.old.says ≡ Ok [])) }
        ensures read { IfOk result (λ next. IfSome next (λ piece.
            self.old.says ≡ with_front (later piece.0 piece.1) self.new.says)) }
        ensures shorter { IfOk result (λ next. IfSome next (λ piece.
            self.new.size < self.old.size)) }
        ensures refused { IfErr result (λ e. Fails refusal_of e self.old.says) }
    {
        if self.rest.is_empty() {
            return Ok(None);
        }
        let rows = rows_to_blank(self.rest, PIECE_BYTES);
        let (front, rest) = self.rest.split_at(rows.size);
        let number = self.number;
        match read_block(alloc, number, front) {
            Ok(paragraphs) => {
                *self = Pieces {
                    number: number + rows.lines,
                    rest,
                };
                Ok(Some((number - 1, paragraphs)))
            }
            Err(fault) => Err(fault),
        }
    }
}
