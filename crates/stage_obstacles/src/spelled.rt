//! How entries and packages are written.

use deb_relation::{ArchList, Atom, Entry, ProfileList};
use deb_text::push_pieces;
use import_closure::Shelf;
use itoa::Buffer;
use plan_reader::push_entry;
use std::alloc::{AllocError, Global};

/// Puts a number behind a text.
pub fn push_number(text: &mut Vec<u8>, number: u64) -> Result<(), AllocError> {
    let mut buffer = Buffer::new();
    text.extend_from_slice(buffer.format(number).as_bytes())
}

/// Puts a package with its version behind a text.
pub fn push_package(text: &mut Vec<u8>, name: &[u8], version: &[u8]) -> Result<(), AllocError> {
    push_pieces(text, &[name, b" (= ", version, b")"])
}

fn push_archs(text: &mut Vec<u8>, list: &ArchList) -> Result<(), AllocError> {
    let mut before: &[u8] = b" [";
    for name in &list.names {
        let mark: &[u8] = if list.negated { b"!" } else { b"" };
        push_pieces(text, &[before, mark, name.text()])?;
        before = b" ";
    }
    text.extend_from_slice(b"]")
}

fn push_profiles(text: &mut Vec<u8>, list: &ProfileList) -> Result<(), AllocError> {
    let mut before: &[u8] = b" <";
    for item in list.items() {
        let mark: &[u8] = if item.negated { b"!" } else { b"" };
        push_pieces(text, &[before, mark, item.word.text()])?;
        before = b" ";
    }
    text.extend_from_slice(b">")
}

/// An entry of one alternative.
fn entry_of(alloc: Global, atom: &Atom) -> Result<Entry, AllocError> {
    let mut alternatives = Vec::new(alloc);
    alternatives.push(atom.clone()?)?;
    Ok(Entry::from_alternatives(alternatives))
}

/// Puts an alternative with its restrictions behind a text.
fn push_alternative(alloc: Global, text: &mut Vec<u8>, atom: &Atom) -> Result<(), AllocError> {
    push_entry(text, &entry_of(alloc, atom)?)?;
    if let Some(list) = atom.archs() {
        push_archs(text, list)?;
    }
    for list in atom.profiles() {
        push_profiles(text, list)?;
    }
    Ok(())
}

/// Puts an entry with its restrictions behind a text.
pub fn push_written(alloc: Global, text: &mut Vec<u8>, entry: &Entry) -> Result<(), AllocError> {
    for (at, atom) in entry.alternatives().iter().enumerate() {
        if at > 0 {
            text.extend_from_slice(b" | ")?;
        }
        push_alternative(alloc, text, atom)?;
    }
    Ok(())
}

/// Puts the package of a block with its version behind a text.
pub fn push_block_package(
    text: &mut Vec<u8>,
    shelf: &Shelf,
    number: u32,
) -> Result<(), AllocError> {
    match shelf.given(number) {
        Some(given) => push_package(text, &given.name, given.version.text()),
        None => Ok(()),
    }
}

/// The name of the source of a block's package.
pub fn source_of<'a>(shelf: &'a Shelf, number: u32) -> &'a [u8] {
    match shelf.given(number) {
        Some(given) => &given.source.name,
        None => b"",
    }
}
