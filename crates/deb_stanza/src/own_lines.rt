//! The lines of a text that are no comments, and the own line of a field and of an item of it.

ghost use Rattle.std.specs.Prelude.{◌≡◌, ◌<◌, [], false, IfOk};
ghost use Rattle.deb_text.specs.Common.{after, control_lines};
ghost use Rattle.deb_stanza.specs.OwnLines as spec;
ghost use Rattle.deb_stanza.specs.Stanza.{continues, is_colon, name_of};

use deb_text::{Class, begins_with, cut_at_first, has, is_comment, next_line};
use std::alloc::{AllocError, Global};
use std::marker::Model;

/// A line without its newline, with its number. Numbers count from 1, comments and blank lines too.
#[derive(Drop)]
pub struct OwnLine<'a> {
    pub number: usize,
    pub bytes: &'a [u8],
}

impl<'a> Model for OwnLine<'a> {
    ghost use Rattle.deb_text.specs.Lines as spec;

    ghost Value = { spec.Line };

    ghost view = { λ line. (line.number, line.bytes.now) };
}

/// What stands before the first colon of a line and behind it; all and nothing where there is none.
#[tactic(auto, using(crate::proofs::OwnLineLaws::before_none, crate::proofs::OwnLineLaws::after_none))]
fn cut_at_colon(line: &[u8]) -> (&[u8], &[u8])
    ensures before { result.0.now ≡ name_of line.now }
    ensures behind { result.1.now ≡ after is_colon line.now }
{
    cut_at_first(b':', line).unwrap_or((line, b""))
}

impl<'a> OwnLine<'a> {
    /// Tells whether the line goes on with the field above it.
    pub fn continues(&self) -> bool
        ensures { result ≡ continues self.now }
    {
        begins_with(Class::Space, self.bytes)
    }

    /// The name of the field that the line begins.
    pub fn name(&self) -> &'a [u8]
        ensures { result.now ≡ name_of self.now.1 }
    {
        cut_at_colon(self.bytes).0
    }

    /// Tells whether the line begins a field of this name.
    pub fn begins(&self, name: &[u8]) -> bool
        ensures { result ≡ spec.begins name.now self.now }
    {
        !self.continues() && name.eq_ignore_ascii_case(self.name())
    }

    /// What of the line is of the value of its field.
    pub fn value(&self) -> &'a [u8]
        ensures { result.now ≡ spec.value_in self.now }
    {
        if self.continues() {
            self.bytes
        } else {
            cut_at_colon(self.bytes).1
        }
    }
}

/// Gives the lines of a text that are no comments, blank ones too.
pub fn numbered_lines(alloc: Global, text: &[u8]) -> Result<Vec<OwnLine<'_>>, AllocError>
    ensures { IfOk result (λ lines. lines.items ≡ control_lines 1 text.now) }
{
    let mut lines = Vec::new(alloc);
    let mut rest = text;
    let mut number = 0;
    while let Some((bytes, behind)) = next_line(rest) {
        rest = behind;
        number += 1;
        if !is_comment(bytes) {
            lines.push(OwnLine { number, bytes })?;
        }
    }
    Ok(lines)
}

/// Gives the lines from the one on that begins the field of this name, but for the case of ASCII
/// letters, the first such line of the number `first` or a later one; none where there is no such line.
#[tactic(auto, unfolding(crate::specs::OwnLines::from_field))]
pub fn from_field<'a, 'b>(lines: &'b [OwnLine<'a>], first: u32, name: &[u8]) -> &'b [OwnLine<'a>]
    ensures { result.now ≡ spec.from_field name.now first lines.now }
{
    let mut left = lines;
    while let [line, rest @ ..] = left {
        if first as usize <= line.number && line.begins(name) {
            return left;
        }
        left = rest;
    }
    left
}

/// Gives the line at which an item of a list begins. The list is the value of the field of this
/// name, of the paragraph that begins at the line `first`; its first item has the place 0. `None` where
/// there is no such item.
#[tactic(auto, using(crate::proofs::OwnLineLaws::line_step), unfolding(crate::specs::OwnLines::item_line))]
pub fn item_line(lines: &[OwnLine], first: u32, name: &[u8], place: usize) -> Option<usize>
    ensures { result ≡ spec.item_line lines.now first name.now place }
{
    let mut left = from_field(lines, first, name);
    let (mut is_inside, mut places) = (false, place);
    while let [line, rest @ ..] = left {
        let (number, mut bytes) = (line.number, line.value());
        while let [byte, behind @ ..] = bytes {
            if *byte == b',' {
                is_inside = false;
            } else if !is_inside && !has(Class::Blank, *byte) {
                if places == 0 {
                    return Some(number);
                }
                (is_inside, places) = (true, places - 1);
            }
            bytes = behind;
        }
        left = match rest {
            [next, ..] if next.continues() => rest,
            _ => &[],
        };
    }
    None
}
