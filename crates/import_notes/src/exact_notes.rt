//! Notes on packages that ask for exactly a version of which a build that was chosen gives a further one.

use deb_relation::{Atom, Entry, Op, Relations};
use deb_text::push_pieces;
use import_closure::{Build, Given, Shelf, is_fitting};
use import_farm::{Taken, Told, push_package, version_text};
use import_wish::WishedRecipe;
use plan_reader::push_entry;
use std::alloc::{AllocError, Global};

/// A package that a build gives under another version than that of the index.
#[derive(Drop)]
struct Again<'a> {
    given: &'a Given,
    version: Vec<u8>,
}

/// The builds, with after how many builds of its version each is the next one.
#[derive(Clone, Copy)]
struct Builds<'a> {
    taken: &'a Taken,
    recipes: &'a [WishedRecipe],
}

/// What a build gives under a further version.
fn given_again<'a>(
    alloc: Global,
    shelf: &'a Shelf,
    build: &Build,
    before: u32,
) -> Result<Vec<Again<'a>>, AllocError> {
    let mut again = Vec::new(alloc);
    if before == 0 {
        return Ok(again);
    }
    for number in &build.outputs {
        if let Some(given) = shelf.given(*number) {
            let version = version_text(alloc, build, given, before)?;
            if version.as_slice() != given.version.text() {
                again.push(Again { given, version })?;
            }
        }
    }
    Ok(again)
}

/// Tells whether a package satisfies an alternative of an entry.
fn satisfies(given: &Given, entry: &Entry) -> bool {
    entry
        .alternatives()
        .iter()
        .any(|atom| is_fitting(atom, given))
}

/// Tells whether an alternative asks for exactly one version of a name.
fn is_exact(atom: &Atom, name: &[u8]) -> bool {
    match atom.relation() {
        Some((Op::Equal, _)) => atom.name() == name,
        _ => false,
    }
}

/// Puts a note on an entry of a package that a further version does not meet behind a text.
fn push_note(
    lines: &mut Vec<u8>,
    one: &Given,
    entry: &Entry,
    again: &Again,
    recipe: &[u8],
) -> Result<(), AllocError> {
    lines.extend_from_slice(b"note: ")?;
    push_package(lines, &one.name, one.version.text())?;
    lines.extend_from_slice(b": ")?;
    push_entry(lines, entry)?;
    lines.extend_from_slice(b" is not met by ")?;
    push_package(lines, &again.given.name, &again.version)?;
    push_pieces(lines, &[b" of recipe ", recipe, b"\n"])
}

/// The notes on an entry, for each of its alternatives that asks for exactly the version of one.
fn push_entry_notes(
    lines: &mut Vec<u8>,
    one: &Given,
    entry: &Entry,
    all: &[Again],
    recipe: &[u8],
) -> Result<(), AllocError> {
    for atom in entry.alternatives() {
        for again in all {
            if is_exact(atom, &again.given.name) && satisfies(again.given, entry) {
                push_note(lines, one, entry, again, recipe)?;
            }
        }
    }
    Ok(())
}

fn push_field_notes(
    lines: &mut Vec<u8>,
    one: &Given,
    field: &Relations,
    all: &[Again],
    recipe: &[u8],
) -> Result<(), AllocError> {
    for entry in field.entries() {
        push_entry_notes(lines, one, entry, all, recipe)?;
    }
    Ok(())
}

fn is_again(all: &[Again], name: &[u8]) -> bool {
    all.iter().any(|again| again.given.name.as_slice() == name)
}

/// The notes on the package of a block, if it is none of these.
fn push_package_notes(
    lines: &mut Vec<u8>,
    shelf: &Shelf,
    number: u32,
    all: &[Again],
    recipe: &[u8],
) -> Result<(), AllocError> {
    let Some(one) = shelf.given(number) else {
        return Ok(());
    };
    if is_again(all, &one.name) {
        return Ok(());
    }
    push_field_notes(lines, one, &one.relations.pre_depends, all, recipe)?;
    push_field_notes(lines, one, &one.relations.depends, all, recipe)
}

/// The notes on what is there at the beginning.
fn push_begin_notes(
    lines: &mut Vec<u8>,
    shelf: &Shelf,
    taken: &Taken,
    all: &[Again],
    recipe: &[u8],
) -> Result<(), AllocError> {
    for variants in taken.numbered.begin.by_name.values() {
        for variant in variants {
            push_package_notes(lines, shelf, variant.number, all, recipe)?;
        }
    }
    Ok(())
}

/// The notes on what builds of other sources give.
fn push_other_notes(
    lines: &mut Vec<u8>,
    shelf: &Shelf,
    builds: Builds,
    all: &[Again],
    wished: &WishedRecipe,
) -> Result<(), AllocError> {
    for (other, build) in builds.recipes.iter().zip(&builds.taken.builds) {
        if other.source.name != wished.source.name {
            for number in &build.outputs {
                push_package_notes(lines, shelf, *number, all, &wished.name)?;
            }
        }
    }
    Ok(())
}

/// The notes on what a build gives under a further version.
fn push_build_notes(
    lines: &mut Vec<u8>,
    shelf: &Shelf,
    builds: Builds,
    all: &[Again],
    wished: &WishedRecipe,
) -> Result<(), AllocError> {
    if all.is_empty() {
        return Ok(());
    }
    push_begin_notes(lines, shelf, builds.taken, all, &wished.name)?;
    push_other_notes(lines, shelf, builds, all, wished)
}

/// Notes on packages that ask for exactly the version of a package of which a build gives a further one,
/// where builds were chosen; else none.
pub fn exact_notes(alloc: Global, shelf: &Shelf, told: Told) -> Result<Vec<u8>, AllocError> {
    let mut lines = Vec::new(alloc);
    if told.read.choice.is_none() {
        return Ok(lines);
    }
    let builds = Builds {
        taken: told.taken,
        recipes: &told.read.of.wish.items.recipes,
    };
    let made = builds
        .taken
        .builds
        .iter()
        .zip(&builds.taken.numbered.counts);
    for (wished, (build, before)) in builds.recipes.iter().zip(made) {
        let all = given_again(alloc, shelf, build, *before)?;
        push_build_notes(&mut lines, shelf, builds, &all, wished)?;
    }
    Ok(lines)
}
