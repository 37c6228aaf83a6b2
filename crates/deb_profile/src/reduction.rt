//! What an architecture and the active build profiles leave of a relation field.

ghost use Rattle.std.specs.Prelude.{◌≡◌, ℕ, List, [], ◌∷◌, ◌++◌, true, IfOk, OnOk};
ghost use Rattle.std.specs.List.{list_all};
ghost use Rattle.std.specs.Option.{option_map};
ghost use Rattle.deb_text.specs.Answers.{Gives};
ghost use Rattle.deb_relation.specs.Common.{refusal_of, is_bare_atom};
ghost use Rattle.deb_profile.specs.Reduction.{means_nothing, qualifier_left, bare, reduced_entry, entry_left, reduced};
ghost use Rattle.deb_profile.specs.Reduction.{is_bare_entry, is_bare, reduced_at};

use crate::reading::reduce_entry_text;
use crate::restriction::keeps;
use crate::word_list::{ArchNames, ProfileSet};
use deb_relation::{Atom, Entry, Kind, RelationError, Relations, judge_entries, next_entry};
use std::alloc::{AllocError, Global};

/// What an architecture and the active build profiles leave of a field: the alternatives that
/// stay, without restrictions and without the qualifiers that mean nothing on a native farm (`any`,
/// `native`, the architecture's own names). An entry with no alternative left goes
/// (Debian Policy 7.1, BuildProfileSpec).
pub fn reduce(
    alloc: Global,
    relations: &Relations,
    names: &ArchNames,
    active: &ProfileSet,
) -> Result<Relations, AllocError>
    ensures { IfOk result (λ left. left ≡ reduced names.now active.now relations.now) }
{
    let mut entries = Vec::new(alloc);
    for entry in relations.entries() {
        push_left(&mut entries, reduce_entry(alloc, entry, names, active)?)?;
    }
    Ok(Relations::from_entries(entries))
}

/// Reads a relation field of a kind, and keeps what [`reduce`] leaves of it: no more than the first
/// `most` entries. What is not kept takes the memory of one alternative.
///
/// # Errors
///
/// The first fault of [`Entry::parse`] from left to right, in each entry of the field. 900 where
/// memory is refused. Nothing is left behind.
pub fn reduce_text(
    alloc: Global,
    text: &[u8],
    kind: Kind,
    names: &ArchNames,
    active: &ProfileSet,
    most: usize,
) -> Result<Relations, RelationError>
    ensures { Gives refusal_of (λ left. left) result
        (reduced_at most names.now active.now kind text.now) }
{
    let mut entries = Vec::new(alloc);
    let mut left = Some(text);
    while entries.len() < most {
        let Some((entry, after)) = next_entry(left) else {
            return Ok(Relations::from_entries(entries));
        };
        push_left(
            &mut entries,
            reduce_entry_text(alloc, entry, kind, names, active)?,
        )?;
        left = after;
    }
    judge_entries(left, kind)?;
    Ok(Relations::from_entries(entries))
}

/// Tells whether [`reduce`] leaves a field as it is, whatever the architecture and the profiles:
/// each entry has an alternative, and none has a qualifier or a restriction. The call takes no
/// memory.
pub fn is_bare(relations: &Relations) -> bool
    ensures bare { result ≡ is_bare relations.now }
    ensures stays { result ≡ true → (names active : List (List ℕ))
        → reduced names active relations.now ≡ relations.now }
{
    are_bare(relations.entries())
}

fn are_bare(entries: &[Entry]) -> bool
    ensures { result ≡ is_bare entries.now }
{
    entries.iter().all(|entry| is_bare_entry(entry))
}

fn is_bare_entry(entry: &Entry) -> bool
    ensures { result ≡ is_bare_entry entry.now }
{
    !entry.is_empty() && all_bare(entry.alternatives())
}

fn all_bare(alternatives: &[Atom]) -> bool
    ensures { result ≡ list_all is_bare_atom alternatives.now }
{
    alternatives.iter().all(|atom| atom.is_bare())
}

/// What is left of one entry, as [`reduce`] leaves it: no alternative where none stays.
pub fn reduce_entry(
    alloc: Global,
    entry: &Entry,
    names: &ArchNames,
    active: &ProfileSet,
) -> Result<Entry, AllocError>
    ensures { IfOk result (λ left. left ≡ reduced_entry names.now active.now entry.now) }
{
    let mut left = Vec::with_capacity(alloc, entry.len())?;
    for atom in entry.alternatives() {
        if keeps(atom, names, active) {
            left.push(bare(alloc, names, atom)?)?;
        }
    }
    Ok(Entry::from_alternatives(left))
}

/// Strips an entry to what [`reduce_entry`] leaves of it. One of which nothing goes stays as it is.
pub fn strip_entry(
    alloc: Global,
    entry: Entry,
    names: &ArchNames,
    active: &ProfileSet,
) -> Result<Entry, AllocError>
    ensures { IfOk result (λ left. left ≡ reduced_entry names.now active.now entry) }
{
    if is_bare_entry(&entry) {
        return Ok(entry);
    }
    reduce_entry(alloc, &entry, names, active)
}

/// An alternative without restrictions, and without a qualifier that means nothing.
pub(crate) fn bare(alloc: Global, names: &ArchNames, atom: &Atom) -> Result<Atom, AllocError>
    ensures { IfOk result (λ left. left ≡ bare names.now atom.now) }
{
    let qualifier = qualifier_left(names, atom.qualifier());
    Atom::unrestricted(alloc, atom.name(), qualifier, atom.relation())
}

fn qualifier_left<'a>(names: &ArchNames, qualifier: Option<&'a [u8]>) -> Option<&'a [u8]>
    ensures { option_map (λ q. q.now) result
        ≡ qualifier_left names.now (option_map (λ q. q.now) qualifier.entry) }
{
    match qualifier {
        Some(qualifier) if !means_nothing(names, qualifier) => Some(qualifier),
        _ => None,
    }
}

fn means_nothing(names: &ArchNames, qualifier: &[u8]) -> bool
    ensures { result ≡ means_nothing names.now qualifier.now }
{
    qualifier == b"any".as_slice() || qualifier == b"native".as_slice() || names.matches(qualifier)
}

/// Puts an entry behind the others where some alternative is left of it.
fn push_left(entries: &mut Vec<Entry>, left: Entry) -> Result<(), AllocError>
    ensures { OnOk result (entries.new.items ≡ entries.old.items ++ entry_left left) }
{
    if !left.is_empty() {
        entries.push(left)?;
    }
    Ok(())
}
