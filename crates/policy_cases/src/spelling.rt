//! Relation fields in one spelling, as dpkg writes them.

use crate::answer::Answer;
use deb_relation::{ArchList, Atom, Entry, Op, ProfileList, Relations};
use deb_version::VersionRef;
use std::alloc::{AllocError, Global};

fn operator(op: Op) -> &'static str {
    match op {
        Op::Earlier => "<<",
        Op::EarlierOrEqual => "<=",
        Op::Equal => "=",
        Op::LaterOrEqual => ">=",
        Op::Later => ">>",
    }
}

/// Adds one of the words in a bracket, each behind the first with a space ahead of it.
fn push_word(
    text: &mut Vec<u8>,
    place: usize,
    negated: bool,
    word: &[u8],
) -> Result<(), AllocError> {
    text.extend_from_slice(if place > 0 { b" " } else { b"" })?;
    text.extend_from_slice(if negated { b"!" } else { b"" })?;
    text.extend_from_slice(word)
}

fn push_archs(text: &mut Vec<u8>, archs: &ArchList) -> Result<(), AllocError> {
    text.extend_from_slice(b" [")?;
    for (place, name) in archs.names.iter().enumerate() {
        push_word(text, place, archs.negated, name.text())?;
    }
    text.extend_from_slice(b"]")
}

fn push_profiles(text: &mut Vec<u8>, profiles: &ProfileList) -> Result<(), AllocError> {
    text.extend_from_slice(b" <")?;
    for (place, item) in profiles.items().iter().enumerate() {
        push_word(text, place, item.negated, item.word.text())?;
    }
    text.extend_from_slice(b">")
}

fn push_relation(text: &mut Vec<u8>, op: Op, version: &VersionRef) -> Result<(), AllocError> {
    text.extend_from_slice(b" (")?;
    text.extend_from_slice(operator(op).as_bytes())?;
    text.extend_from_slice(b" ")?;
    text.extend_from_slice(version.text())?;
    text.extend_from_slice(b")")
}

fn push_restrictions(text: &mut Vec<u8>, atom: &Atom) -> Result<(), AllocError> {
    if let Some(archs) = atom.archs() {
        push_archs(text, archs)?;
    }
    for profiles in atom.profiles() {
        push_profiles(text, profiles)?;
    }
    Ok(())
}

/// Adds an alternative, as `name:qualifier (op version) [architectures] <profiles> ..`.
fn push_atom(text: &mut Vec<u8>, atom: &Atom) -> Result<(), AllocError> {
    text.extend_from_slice(atom.name())?;
    if let Some(qualifier) = atom.qualifier() {
        text.extend_from_slice(b":")?;
        text.extend_from_slice(qualifier)?;
    }
    if let Some((op, version)) = atom.relation() {
        push_relation(text, op, &version)?;
    }
    push_restrictions(text, atom)
}

/// Adds an entry, whose alternatives are divided by ` | `.
fn push_entry(text: &mut Vec<u8>, entry: &Entry) -> Result<(), AllocError> {
    for (place, atom) in entry.alternatives().iter().enumerate() {
        text.extend_from_slice(if place > 0 { b" | " } else { b"" })?;
        push_atom(text, atom)?;
    }
    Ok(())
}

/// Adds a field, whose entries are divided by `, `.
fn push_field(text: &mut Vec<u8>, field: &Relations) -> Result<(), AllocError> {
    for (place, entry) in field.entries().iter().enumerate() {
        text.extend_from_slice(if place > 0 { b", " } else { b"" })?;
        push_entry(text, entry)?;
    }
    Ok(())
}

/// The text of an alternative.
pub fn spelled_atom(alloc: Global, atom: &Atom) -> Answer {
    let mut answer = Vec::new(alloc);
    push_atom(&mut answer, atom)?;
    Ok(answer)
}

/// The text of an entry.
pub fn spelled_entry(alloc: Global, entry: &Entry) -> Answer {
    let mut answer = Vec::new(alloc);
    push_entry(&mut answer, entry)?;
    Ok(answer)
}

/// The text of a field.
pub fn spelled_field(alloc: Global, field: &Relations) -> Answer {
    let mut answer = Vec::new(alloc);
    push_field(&mut answer, field)?;
    Ok(answer)
}
