//! What is said of an item of the farm text, below its refusal.

use crate::farm_faults::{Part, name_field, name_of, namesake};
use crate::found::{Found, Wrong};
use crate::spelling::Piece::{Number, Words};
use crate::spelling::{Pushed, say};
use deb_relation::Entry;
use deb_stanza::item_line;
use farm_universe::TWICE;
use plan_reader::push_entry;
use std::alloc::AllocError;

/// Puts a line's number behind a text.
fn push_where(text: &mut Vec<u8>, line: Option<usize>) -> Pushed {
    match line {
        Some(line) => say(text, b"  farm line %0: ", &[Number(line as u64)]),
        None => say(text, b"  farm: ", &[]),
    }
}

/// Puts at which line something stands above already behind a text.
fn push_above(text: &mut Vec<u8>, line: Option<usize>) -> Pushed {
    let line = line.unwrap_or(0) as u64;
    say(text, b" stands at line %0 already\n", &[Number(line)])
}

/// The item of this place.
fn item_at(part: Part<'_, '_>, place: usize) -> Result<Option<Entry>, AllocError> {
    let mut left = part.items()?;
    for _ in 0..place {
        left.next()?;
    }
    left.next()
}

/// Puts words and an entry, if it is there, behind a text.
fn push_item(text: &mut Vec<u8>, words: &[u8], item: Option<&Entry>) -> Pushed {
    say(text, words, &[])?;
    match item {
        Some(item) => push_entry(text, item),
        None => Ok(()),
    }
}

/// Puts what is wrong with the member of a base chroot that an item names behind a text.
fn push_wrong(text: &mut Vec<u8>, part: Part<'_, '_>, item: &Entry, wrong: Wrong) -> Pushed {
    let Some(member) = part.universe.item_variant(item) else {
        return Ok(());
    };
    let relations = part.universe.relations(member);
    match wrong {
        Wrong::Twice => say(text, b" has another version behind it", &[]),
        Wrong::Depends(entry) => {
            push_item(text, b" Depends: ", relations.depends.entries().get(entry))
        }
        Wrong::PreDepends(entry) => {
            let entries = relations.pre_depends.entries();
            push_item(text, b" Pre-Depends: ", entries.get(entry))
        }
        Wrong::Excludes(other) => push_item(text, b" excludes ", item_at(part, other)?.as_ref()),
    }
}

/// Puts that the name of the paragraph is that of an earlier one behind a text, if it is.
fn push_taken(text: &mut Vec<u8>, part: Part<'_, '_>) -> Pushed {
    let Some(other) = namesake(part.paragraph) else {
        return Ok(());
    };
    let field = name_field(part.paragraph);
    push_where(text, item_line(part.lines, part.paragraph.line(), field, 0))?;
    say(text, b"%0", &[Words(name_of(part.paragraph))])?;
    push_above(text, item_line(part.lines, other.line(), field, 0))
}

/// Puts an item, at its own line, and what the refusal is about behind a text.
fn push_found(
    text: &mut Vec<u8>,
    part: Part<'_, '_>,
    place: usize,
    found: Option<Found>,
) -> Pushed {
    let item = item_at(part, place)?;
    push_where(text, part.line_of(Some(place)))?;
    push_item(text, b"", item.as_ref())?;
    if let Some(Found::Again(_, first)) = found {
        return push_above(text, part.line_of(Some(first)));
    }
    if let (Some(Found::Member(_, wrong)), Some(item)) = (found, &item) {
        push_wrong(text, part, item, wrong)?;
    }
    say(text, b"\n", &[])
}

/// The line of what a refusal is about, or of a name that is taken; no byte where it is about nothing.
pub fn found_text(part: Part<'_, '_>, found: Option<Found>) -> Result<Vec<u8>, AllocError> {
    let mut text = Vec::new(part.alloc);
    match found {
        Some(Found::Item(place) | Found::Again(place, _) | Found::Member(place, _)) => {
            push_found(&mut text, part, place, found)?;
        }
        Some(Found::TooLarge) => {
            let line = item_line(part.lines, part.paragraph.line(), b"Capacity", 0);
            push_where(&mut text, line)?;
            let words = b"the packages take more disk space than this\n";
            say(&mut text, words, &[])?;
        }
        Some(Found::Over(limit)) => say(&mut text, limit.text(), &[])?,
        None if part.code == TWICE => push_taken(&mut text, part)?,
        None => {}
    }
    Ok(text)
}
