//! Relation fields as a control file spells them (Debian Policy 7.1).

use deb_relation::{ArchList, Atom, Entry, Item, Op, ProfileList, Relations, Word};
use deb_text::push_pieces;
use deb_version::VersionRef;
use std::alloc::{AllocError, Global};
use std::collections::BTreeSet;

fn operator_text(op: Op) -> &'static [u8] {
    match op {
        Op::Earlier => b"<<",
        Op::EarlierOrEqual => b"<=",
        Op::Equal => b"=",
        Op::LaterOrEqual => b">=",
        Op::Later => b">>",
    }
}

fn push_relation(text: &mut Vec<u8>, relation: Option<(Op, VersionRef)>) -> Result<(), AllocError> {
    match relation {
        None => Ok(()),
        Some((op, version)) => {
            push_pieces(text, &[b" (", operator_text(op), b" "])?;
            push_pieces(text, &[version.text(), b")"])
        }
    }
}

/// Puts a word of a list behind a text, with what stands before it.
fn push_word(
    text: &mut Vec<u8>,
    before: &[u8],
    word: &Word,
    negated: bool,
) -> Result<(), AllocError> {
    text.extend_from_slice(before)?;
    if negated {
        text.extend_from_slice(b"!")?;
    }
    text.extend_from_slice(word.text())
}

fn push_archs(text: &mut Vec<u8>, list: &ArchList) -> Result<(), AllocError> {
    for (place, name) in list.names.iter().enumerate() {
        let before: &[u8] = if place == 0 { b" [" } else { b" " };
        push_word(text, before, name, list.negated)?;
    }
    text.extend_from_slice(b"]")
}

fn push_items(text: &mut Vec<u8>, items: &[Item]) -> Result<(), AllocError> {
    for (place, item) in items.iter().enumerate() {
        let before: &[u8] = if place == 0 { b" <" } else { b" " };
        push_word(text, before, &item.word, item.negated)?;
    }
    text.extend_from_slice(b">")
}

fn push_lists(text: &mut Vec<u8>, lists: &[ProfileList]) -> Result<(), AllocError> {
    for list in lists {
        push_items(text, list.items())?;
    }
    Ok(())
}

fn push_atom(text: &mut Vec<u8>, atom: &Atom) -> Result<(), AllocError> {
    text.extend_from_slice(atom.name())?;
    if let Some(qualifier) = atom.qualifier() {
        push_pieces(text, &[b":", qualifier])?;
    }
    push_relation(text, atom.relation())?;
    if let Some(list) = atom.archs() {
        push_archs(text, list)?;
    }
    push_lists(text, atom.profiles())
}

/// The text of an entry, its alternatives joined by ` | `.
fn entry_text(alloc: Global, entry: &Entry) -> Result<Vec<u8>, AllocError> {
    let mut text = Vec::new(alloc);
    for (place, atom) in entry.alternatives().iter().enumerate() {
        if place > 0 {
            text.extend_from_slice(b" | ")?;
        }
        push_atom(&mut text, atom)?;
    }
    Ok(text)
}

/// Puts a field with these entries behind a text, with a newline; nothing where there is no entry.
pub fn push_field(
    alloc: Global,
    text: &mut Vec<u8>,
    name: &[u8],
    field: &Relations,
) -> Result<(), AllocError> {
    if field.is_empty() {
        return Ok(());
    }
    push_pieces(text, &[name, b":"])?;
    push_entries(alloc, text, b" ", field.entries())?;
    text.extend_from_slice(b"\n")
}

/// Puts entries behind a text: this ahead of the first, and a comma between two of them. An entry
/// that stands again is left out.
pub fn push_entries(
    alloc: Global,
    text: &mut Vec<u8>,
    ahead: &[u8],
    entries: &[Entry],
) -> Result<(), AllocError> {
    let mut seen = BTreeSet::new(alloc);
    let mut is_first = true;
    for entry in entries {
        let words = entry_text(alloc, entry)?;
        let start = text.len();
        text.extend_from_slice(if is_first { ahead } else { b", " })?;
        text.extend_from_slice(&words)?;
        if seen.insert(words)? {
            is_first = false;
        } else {
            text.truncate(start);
        }
    }
    Ok(())
}
