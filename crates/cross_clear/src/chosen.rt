//! The sources that recipes build, as they are given.

use cross_laws::types::Side;
use cross_sources::{BuildRelations, KeptSource};
use cross_wish::{CrossRecipe, CrossWish};
use deb_profile::{ArchNames, ProfileSet, keeps};
use deb_relation::{Entry, Relations};
use deb_stanza::Paragraphs;
use deb_text::{cut_at_first, cut_at_last, trim};
use farm_model::Mode;
use std::alloc::{AllocError, Global};

/// The sources of an index of a name.
#[derive(Drop)]
pub struct NamedSources<'a> {
    pub name: &'a str,
    pub kept: Vec<KeptSource>,
}

/// A source that a recipe builds: where it is given, its name, and what of its build relations
/// holds for the recipe.
#[derive(Drop)]
pub struct Chosen<'a> {
    pub index: &'a str,
    pub line: u32,
    pub name: Vec<u8>,
    pub entries: Vec<Entry>,
}

/// The names that match the two architectures.
#[derive(Clone, Copy)]
pub struct Names<'a> {
    pub build: &'a ArchNames,
    pub host: &'a ArchNames,
}

/// The version in `NAME (= VERSION)`.
fn version_in(value: &[u8]) -> &[u8] {
    let Some((_, behind)) = cut_at_first(b'=', value) else {
        return b"";
    };
    match cut_at_last(b')', behind) {
        Some((version, _)) => trim(version),
        None => b"",
    }
}

/// The alternatives of an entry that hold.
fn held_entry(
    alloc: Global,
    entry: &Entry,
    names: &ArchNames,
    profiles: &ProfileSet,
) -> Result<Entry, AllocError> {
    let mut left = Vec::new(alloc);
    for atom in entry.alternatives() {
        if keeps(atom, names, profiles) {
            left.push(atom.clone()?)?;
        }
    }
    Ok(Entry::from_alternatives(left))
}

fn push_held(
    alloc: Global,
    entries: &mut Vec<Entry>,
    field: &Relations,
    names: &ArchNames,
    profiles: &ProfileSet,
) -> Result<(), AllocError> {
    for entry in field.entries() {
        entries.push(held_entry(alloc, entry, names, profiles)?)?;
    }
    Ok(())
}

fn is_for_arch(mode: Mode) -> bool {
    match mode {
        Mode::Full | Mode::Arch => true,
        Mode::Indep => false,
    }
}

fn is_for_indep(mode: Mode) -> bool {
    match mode {
        Mode::Full | Mode::Indep => true,
        Mode::Arch => false,
    }
}

/// What of build relations holds in a mode.
fn held_relations(
    alloc: Global,
    of: &BuildRelations,
    mode: Mode,
    names: &ArchNames,
    profiles: &ProfileSet,
) -> Result<Vec<Entry>, AllocError> {
    let mut entries = Vec::new(alloc);
    push_held(alloc, &mut entries, &of.depends, names, profiles)?;
    if is_for_arch(mode) {
        push_held(alloc, &mut entries, &of.depends_arch, names, profiles)?;
    }
    if is_for_indep(mode) {
        push_held(alloc, &mut entries, &of.depends_indep, names, profiles)?;
    }
    push_held(alloc, &mut entries, &of.conflicts, names, profiles)?;
    if is_for_arch(mode) {
        push_held(alloc, &mut entries, &of.conflicts_arch, names, profiles)?;
    }
    if is_for_indep(mode) {
        push_held(alloc, &mut entries, &of.conflicts_indep, names, profiles)?;
    }
    Ok(entries)
}

fn names_for<'a>(names: Names<'a>, side: Side) -> &'a ArchNames {
    match side {
        Side::Build => names.build,
        Side::Host => names.host,
    }
}

fn is_same_side(a: Side, b: Side) -> bool {
    match (a, b) {
        (Side::Build, Side::Build) => true,
        (Side::Host, Side::Host) => true,
        _ => false,
    }
}

fn is_chosen(kept: &KeptSource, recipe: &CrossRecipe, version: &[u8]) -> bool {
    is_same_side(kept.side, recipe.side)
        && kept.given.source.name.as_slice() == recipe.native.source.name.as_slice()
        && kept.given.source.version.text() == version
}

/// A source as a recipe builds it.
fn chosen_of<'a>(
    alloc: Global,
    index: &'a str,
    kept: &KeptSource,
    recipe: &CrossRecipe,
    names: Names,
) -> Result<Chosen<'a>, AllocError> {
    let Ok(profiles) = ProfileSet::parse(alloc, &recipe.profiles) else {
        return Err(AllocError);
    };
    let names = names_for(names, recipe.side);
    let relations = &kept.given.relations;
    Ok(Chosen {
        index,
        line: kept.line,
        name: Vec::from_slice(alloc, &kept.given.source.name)?,
        entries: held_relations(alloc, relations, recipe.mode, names, &profiles)?,
    })
}

/// The first source in an index of this version that a recipe may build.
fn find_in<'a>(
    alloc: Global,
    sources: &NamedSources<'a>,
    recipe: &CrossRecipe,
    version: &[u8],
    names: Names,
) -> Result<Option<Chosen<'a>>, AllocError> {
    for kept in &sources.kept {
        if is_chosen(kept, recipe, version) {
            let chosen = chosen_of(alloc, sources.name, kept, recipe, names)?;
            return Ok(Some(chosen));
        }
    }
    Ok(None)
}

/// The same in several.
fn find<'a>(
    alloc: Global,
    sources: &[NamedSources<'a>],
    recipe: &CrossRecipe,
    version: &[u8],
    names: Names,
) -> Result<Option<Chosen<'a>>, AllocError> {
    for one in sources {
        if let Some(chosen) = find_in(alloc, one, recipe, version, names)? {
            return Ok(Some(chosen));
        }
    }
    Ok(None)
}

/// The version of the source of a recipe of this number, as the farm text has it.
fn version_of<'a>(farm: &'a Paragraphs, number: usize) -> &'a [u8] {
    let at = number.saturating_add(1);
    if at >= farm.count() {
        return b"";
    }
    match farm.field(at, b"Source") {
        Some(value) => version_in(value),
        None => b"",
    }
}

/// The sources that the recipes of a farm build.
pub fn chosen_sources<'a>(
    alloc: Global,
    sources: &[NamedSources<'a>],
    wish: &CrossWish,
    farm: &Paragraphs,
    names: Names,
) -> Result<Vec<Chosen<'a>>, AllocError> {
    let mut chosen = Vec::new(alloc);
    for (number, recipe) in wish.items.recipes.iter().enumerate() {
        let version = version_of(farm, number);
        if let Some(one) = find(alloc, sources, recipe, version, names)? {
            chosen.push(one)?;
        }
    }
    Ok(chosen)
}
