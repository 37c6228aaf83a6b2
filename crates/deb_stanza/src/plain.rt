//! The lines of a text that are neither blank nor comments.

ghost use Rattle.std.specs.Prelude.{◌≡◌, ◌<◌, ◌≤◌, length, map, IfOk};
ghost use Rattle.deb_text.specs.Common.{Gives, refusal_of, is_skipped, plain_lines};
ghost use Rattle.deb_stanza.specs.Plain.{line_at, plain_lines_at};
ghost use Rattle.deb_stanza.specs.View.{AreWithin, line_in};

use crate::error::{MOST_BYTES, TEXT_TOO_LONG};
use crate::fields::fault;
use deb_text::{Fault, is_blank_line, is_comment, next_line};
use std::alloc::{AllocError, Global};
use std::marker::Model;

/// Where a line stands in its text, up to its newline, and its number.
#[derive(Clone, Copy)]
struct Place {
    start: u32,
    end: u32,
    number: u32,
}

/// Lines of a text, with their numbers. A contract sees the list of them.
#[derive(Drop)]
pub struct Lines<'a> {
    text: &'a [u8],
    places: Vec<Place>,
}

impl<'a> Model for Lines<'a> {
    ghost use Rattle.std.specs.Prelude.{List, map};
    ghost use Rattle.deb_text.specs.Lines as lines;
    ghost use Rattle.deb_stanza.specs.View.{AreWithin, line_in};

    ghost Value = { List lines.Line };

    ghost view = { λ l. map (line_in l.text.now) l.places.items };

    ghost invariant = { λ l. AreWithin l.text.now l.places.items };
}

impl<'a> Lines<'a> {
    /// How many lines there are.
    pub fn count(&self) -> usize
        ensures { result ≡ length self.now }
    {
        self.places.len()
    }

    /// A line, untrimmed and without its newline. The first has the place 0.
    pub fn line(&self, place: usize) -> &'a [u8]
        requires { place < length self.now }
        ensures { result.now ≡ (line_at self.now place).1 }
    {
        let at = self.places[place];
        &self.text[at.start as usize..at.end as usize]
    }

    /// The number of a line in its text, counted from 1, skipped lines too.
    pub fn number(&self, place: usize) -> u32
        requires { place < length self.now }
        ensures { result ≡ (line_at self.now place).0 }
    {
        self.places[place].number
    }
}

/// Reads the lines of a text that are neither blank nor comments: lines of spaces and tabs
/// alone, empty ones, and those whose own first byte is `#` are skipped.
///
/// # Errors
///
/// The fault has file 0: [`TEXT_TOO_LONG`] at line 0, where the text has more than [`MOST_BYTES`]
/// bytes. [`Fault::MEMORY`] where memory ran out.
pub fn plain_lines(alloc: Global, text: &[u8]) -> Result<Lines<'_>, Fault>
    ensures { Gives refusal_of (λ lines. lines) result (plain_lines_at text.now) }
{
    if text.len() > MOST_BYTES {
        return Err(fault(0, TEXT_TOO_LONG));
    }
    Ok(Lines {
        text,
        places: kept_places(alloc, text)?,
    })
}

fn is_skipped(line: &[u8]) -> bool
    ensures { result ≡ is_skipped line.now }
{
    is_comment(line) || is_blank_line(line)
}

/// Where the lines of a text stand that are not skipped.
fn kept_places(alloc: Global, text: &[u8]) -> Result<Vec<Place>, AllocError>
    requires { length text.now ≤ MOST_BYTES }
    ensures lines { IfOk result
        (λ places. map (line_in text.now) places.items ≡ plain_lines 1 text.now) }
    ensures within { IfOk result (λ places. AreWithin text.now places.items) }
{
    let mut places = Vec::new(alloc);
    let mut rest = text;
    let mut number = 0;
    while let Some((line, behind)) = next_line(rest) {
        let start = (text.len() - rest.len()) as u32;
        let end = start + line.len() as u32;
        rest = behind;
        number += 1;
        if !is_skipped(line) {
            places.push(Place { start, end, number })?;
        }
    }
    Ok(places)
}
