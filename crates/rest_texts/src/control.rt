//! Control text by its lines and paragraphs.

use deb_stanza::Paragraphs;
use deb_text::{
    Class, Fault, begins_with, cut_at_first, is_blank_line, is_comment, next_line, push_pieces,
};
use item_index::{Item as Place, ItemIndex};
use std::alloc::{AllocError, Global};

/// A control text: its lines, and its paragraphs with their fields.
#[derive(Drop)]
pub struct ControlText<'a> {
    lines: Vec<&'a [u8]>,
    paragraphs: Paragraphs,
}

fn lines_of<'a>(alloc: Global, text: &'a [u8]) -> Result<Vec<&'a [u8]>, AllocError> {
    let mut lines = Vec::new(alloc);
    let mut rest = text;
    while let Some((line, behind)) = next_line(rest) {
        lines.push(line)?;
        rest = behind;
    }
    Ok(lines)
}

/// The line of a text with this number, the first being 1.
pub fn line_at(text: &[u8], number: u32) -> Option<&[u8]> {
    let mut rest = text;
    let mut left = number;
    while let Some((line, behind)) = next_line(rest) {
        if left <= 1 {
            return Some(line);
        }
        left -= 1;
        rest = behind;
    }
    None
}

/// Where the paragraph ends that begins at a place: past its last line that is no comment.
fn block_end(lines: &[&[u8]], start: usize) -> usize {
    let mut end = start;
    for place in start..lines.len() {
        if is_blank_line(lines[place]) {
            return end;
        }
        if !is_comment(lines[place]) {
            end = place + 1;
        }
    }
    end
}

impl<'a> ControlText<'a> {
    /// Reads a control text.
    ///
    /// # Errors
    ///
    /// The first fault of its paragraphs, of file 0.
    pub fn read(alloc: Global, text: &'a [u8]) -> Result<ControlText<'a>, Fault> {
        let paragraphs = Paragraphs::read(alloc, text)?;
        let lines = lines_of(alloc, text)?;
        Ok(ControlText { lines, paragraphs })
    }

    /// How many paragraphs there are.
    pub fn count(&self) -> usize {
        self.paragraphs.count()
    }

    /// The value of a field, if there is such a paragraph and it has the field.
    pub fn value(&self, number: usize, field: &[u8]) -> Option<&[u8]> {
        if number >= self.paragraphs.count() {
            return None;
        }
        self.paragraphs.field(number, field)
    }

    /// The lines of a paragraph; none where there is no such paragraph.
    pub fn block(&self, number: usize) -> &[&'a [u8]] {
        if number >= self.paragraphs.count() {
            return &[];
        }
        let start = (self.paragraphs.line_of(number) as usize).saturating_sub(1);
        let end = block_end(&self.lines, start);
        if start > end || end > self.lines.len() {
            return &[];
        }
        &self.lines[start..end]
    }
}

fn is_named(line: &[u8], fields: &[&[u8]]) -> bool {
    let name = match cut_at_first(b':', line) {
        Some((name, _)) => name,
        None => line,
    };
    fields.iter().any(|field| name.eq_ignore_ascii_case(field))
}

/// Puts lines of a paragraph behind a text, but for those of some fields.
pub fn push_block(
    text: &mut Vec<u8>,
    lines: &[&[u8]],
    without: &[&[u8]],
) -> Result<(), AllocError> {
    let mut is_out = false;
    for line in lines {
        if !is_comment(line) && !begins_with(Class::Space, line) {
            is_out = is_named(line, without);
        }
        if !is_out || is_comment(line) {
            push_pieces(text, &[line, b"\n"])?;
        }
    }
    Ok(())
}

/// Tells whether two paragraphs have the same lines.
pub fn is_same_block(lines: &[&[u8]], others: &[&[u8]]) -> bool {
    if lines.len() != others.len() {
        return false;
    }
    for place in 0..lines.len() {
        if lines[place] != others[place] {
            return false;
        }
    }
    true
}

/// The paragraphs of a control text that have a field, by the value of that.
#[derive(Drop)]
pub struct Keyed {
    /// The numbers of these paragraphs, in their order.
    pub numbers: Vec<usize>,
    index: ItemIndex<usize>,
}

impl Keyed {
    /// The paragraphs that have this field, from the one of a number on.
    pub fn of(
        alloc: Global,
        text: &ControlText<'_>,
        first: usize,
        field: &[u8],
    ) -> Result<Keyed, AllocError> {
        let mut numbers = Vec::new(alloc);
        let mut index = ItemIndex::new(alloc, text.count())?;
        for number in first..text.count() {
            if let Some(value) = text.value(number, field) {
                let place = Place {
                    owner: numbers.len(),
                    entry: number,
                    alternative: 0,
                };
                index.add(value, place)?;
                numbers.push(number)?;
            }
        }
        Ok(Keyed { numbers, index })
    }

    /// Where to look for those of a value: each by its place among the numbers, and its number; and
    /// perhaps others.
    pub fn listed(&self, value: &[u8]) -> &[Place<usize>] {
        self.index.listed(value)
    }

    /// The place among the numbers of the first one with a value.
    pub fn find(&self, text: &ControlText<'_>, field: &[u8], value: &[u8]) -> Option<usize> {
        for place in self.listed(value) {
            if let Some(found) = text.value(place.entry, field) {
                if found == value {
                    return Some(place.owner);
                }
            }
        }
        None
    }
}
