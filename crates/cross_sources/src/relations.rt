//! The build relations of a source, encoded for a build for a side.

ghost use Rattle.std.specs.Prelude.{◌≡◌, ◌++◌, IfOk, OnOk};
ghost use Rattle.std.specs.List.{list_any};
ghost use Rattle.std.specs.Option.{option_copied};
ghost use Rattle.deb_relation.specs.Holding.{archs_hold};
ghost use Rattle.deb_profile.specs.Reduction.{entry_left};
ghost use Rattle.deb_profile.specs.Restriction.{is_among};
ghost use Rattle.cross_sources.specs.GivenSource.{relations_view};
ghost use Rattle.cross_sources.specs.Relations.{ahead_for, clashes_for, for_all, held, made_for, needs_for, unbracketed, way_of, without_brackets};

use crate::asked::Asked;
use crate::given::BuildRelations;
use cross_laws::types::Side;
use cross_relations::{Asker, encode_build_clashes, encode_needs};
use deb_profile::ArchNames;
use deb_relation::{ArchList, Atom, Entry, ProfileList, Relations, Word};
use std::alloc::{AllocError, Global};

fn some_matches(names: &ArchNames, list: &[Word]) -> bool
    ensures { result ≡ list_any (is_among names.now) list.now }
{
    list.iter().any(|name| names.matches(name.text()))
}

/// Tells whether architectures have the one of these names.
fn archs_hold(names: &ArchNames, archs: Option<&ArchList>) -> bool
    ensures { result ≡ archs_hold (is_among names.now) (option_copied archs.entry) }
{
    match archs {
        Some(list) => list.negated != some_matches(names, &list.names),
        None => true,
    }
}

fn copy_profiles(alloc: Global, lists: &[ProfileList]) -> Result<Vec<ProfileList>, AllocError>
    ensures { IfOk result (λ copies. copies.items ≡ lists.now) }
{
    let mut copies = Vec::with_capacity(alloc, lists.len())?;
    for list in lists {
        copies.push(list.clone()?)?;
    }
    Ok(copies)
}

/// An alternative without its architectures.
fn for_all(alloc: Global, atom: &Atom) -> Result<Atom, AllocError>
    ensures { IfOk result (λ made. made ≡ for_all atom.now) }
{
    let profiles = copy_profiles(alloc, atom.profiles())?;
    Atom::new(
        alloc,
        atom.name(),
        atom.qualifier(),
        atom.relation(),
        None,
        profiles,
    )
}

/// The alternatives whose architectures have the one of these names, without these.
fn unbracketed(alloc: Global, names: &ArchNames, entry: &Entry) -> Result<Entry, AllocError>
    ensures { IfOk result (λ left. left ≡ unbracketed names.now entry.now) }
{
    let mut left = Vec::with_capacity(alloc, entry.len())?;
    for atom in entry.alternatives() {
        if archs_hold(names, atom.archs()) {
            left.push(for_all(alloc, atom)?)?;
        }
    }
    Ok(Entry::from_alternatives(left))
}

/// Puts an entry behind others where an alternative is left of it.
fn push_left(entries: &mut Vec<Entry>, left: Entry) -> Result<(), AllocError>
    ensures { OnOk result (entries.new.items ≡ entries.old.items ++ entry_left left) }
{
    if !left.is_empty() {
        entries.push(left)?;
    }
    Ok(())
}

fn without_brackets(
    alloc: Global,
    names: &ArchNames,
    field: &Relations,
) -> Result<Relations, AllocError>
    ensures { IfOk result (λ left. left ≡ without_brackets names.now field.now) }
{
    let mut entries = Vec::new(alloc);
    for entry in field.entries() {
        push_left(&mut entries, unbracketed(alloc, names, entry)?)?;
    }
    Ok(Relations::from_entries(entries))
}

/// The entries that may hold for a build for a side.
fn held(alloc: Global, of: Asked, side: Side, field: &Relations) -> Result<Relations, AllocError>
    ensures { IfOk result (λ left. left ≡ held (way_of of.entry) side field.now) }
{
    match side {
        Side::Build => without_brackets(alloc, of.names, field),
        Side::Host => field.clone(),
    }
}

fn needs_for(
    alloc: Global,
    of: Asked,
    side: Side,
    field: &Relations,
) -> Result<Relations, AllocError>
    ensures { IfOk result (λ made. made ≡ needs_for (way_of of.entry) side field.now) }
{
    let at = Asker {
        side,
        is_build: true,
    };
    let field = held(alloc, of, side, field)?;
    encode_needs(alloc, of.sides, at, &field)
}

fn clashes_for(
    alloc: Global,
    of: Asked,
    side: Side,
    field: &Relations,
) -> Result<Relations, AllocError>
    ensures { IfOk result (λ made. made ≡ clashes_for (way_of of.entry) side field.now) }
{
    let field = held(alloc, of, side, field)?;
    encode_build_clashes(alloc, of.sides, &field)
}

/// Entries, and behind them others.
fn joined(first: &Relations, more: &Relations) -> Result<Relations, AllocError>
    ensures { IfOk result (λ made. made ≡ first.now ++ more.now) }
{
    let mut entries = first.clone()?.into_entries();
    for entry in more.entries() {
        entries.push(entry.clone()?)?;
    }
    Ok(Relations::from_entries(entries))
}

/// What a build for a side needs always.
fn depends_for(
    alloc: Global,
    of: Asked,
    side: Side,
    field: &Relations,
) -> Result<Relations, AllocError>
    ensures { IfOk result (λ made. made
        ≡ ahead_for (way_of of.entry) side ++ needs_for (way_of of.entry) side field.now) }
{
    let needs = needs_for(alloc, of, side, field)?;
    match side {
        Side::Build => Ok(needs),
        Side::Host => joined(of.ahead, &needs),
    }
}

/// Encodes the build relations of a source for a build for a side.
pub fn made_for(
    alloc: Global,
    of: Asked,
    side: Side,
    given: &BuildRelations,
) -> Result<BuildRelations, AllocError>
    ensures { IfOk result (λ made.
        relations_view made ≡ made_for (way_of of.entry) side (relations_view given.now)) }
{
    let depends = depends_for(alloc, of, side, &given.depends)?;
    let depends_arch = needs_for(alloc, of, side, &given.depends_arch)?;
    let depends_indep = needs_for(alloc, of, side, &given.depends_indep)?;
    let conflicts = clashes_for(alloc, of, side, &given.conflicts)?;
    let conflicts_arch = clashes_for(alloc, of, side, &given.conflicts_arch)?;
    let conflicts_indep = clashes_for(alloc, of, side, &given.conflicts_indep)?;
    Ok(BuildRelations {
        depends,
        depends_arch,
        depends_indep,
        conflicts,
        conflicts_arch,
        conflicts_indep,
    })
}
