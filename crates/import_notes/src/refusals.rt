//! Why there is no farm: the lines that say so.

use crate::faults::{given_lines, made_lines};
use crate::source_hints::{Indexes, push_hint};
use deb_relation::Entry;
use deb_text::push_pieces;
use import_closure::{BuildStop, Lack};
use import_farm::{Inputs, Refusal, RefusedRecipe, push_number};
use plan_reader::push_entry;
use std::alloc::{AllocError, Global};

/// The first line of a refusal: its code, the text that it is about, and a line of that.
pub fn first_line(alloc: Global, code: u16, name: &[u8], line: u32) -> Result<Vec<u8>, AllocError> {
    let mut text = Vec::new(alloc);
    text.extend_from_slice(b"refused ")?;
    push_number(&mut text, u64::from(code))?;
    push_pieces(&mut text, &[b" ", name, b" line "])?;
    push_number(&mut text, u64::from(line))?;
    text.extend_from_slice(b"\n")?;
    Ok(text)
}

fn without_source(
    alloc: Global,
    recipe: &RefusedRecipe,
    indexes: &mut Indexes<'_, '_>,
) -> Result<Vec<u8>, AllocError> {
    let mut text = first_line(alloc, 702, b"wish", recipe.line)?;
    push_pieces(&mut text, &[b"  no source ", &recipe.source])?;
    if let Some(version) = &recipe.version {
        push_pieces(&mut text, &[b" (= ", version, b")"])?;
    }
    text.extend_from_slice(b" in the Sources indexes")?;
    push_hint(alloc, &mut text, indexes, &recipe.source)?;
    text.extend_from_slice(b"\n")?;
    Ok(text)
}

fn without_output(
    alloc: Global,
    recipe: &RefusedRecipe,
    name: &[u8],
) -> Result<Vec<u8>, AllocError> {
    let mut text = first_line(alloc, 703, b"wish", recipe.line)?;
    push_pieces(&mut text, &[b"  recipe ", &recipe.name])?;
    push_pieces(&mut text, &[b" does not give ", name, b"\n"])?;
    Ok(text)
}

/// What stands before the name of a recipe that gives nothing, and behind it.
fn around_name(lack: Lack) -> (&'static [u8], &'static [u8]) {
    match lack {
        Lack::Unindexed => (
            b"  the Packages indexes have nothing that recipe ",
            b" gives\n",
        ),
        Lack::OnlyAll => (
            b"  recipe ",
            b" gives nothing in mode arch: all that its source has here is of architecture all\n",
        ),
        Lack::NoAll => (
            b"  recipe ",
            b" gives nothing in mode indep: its source has nothing of architecture all here\n",
        ),
        Lack::NotHere => (
            b"  recipe ",
            b" gives nothing: its source has no package for the architecture and the profiles\n",
        ),
    }
}

fn without_packages(
    alloc: Global,
    recipe: &RefusedRecipe,
    lack: Lack,
) -> Result<Vec<u8>, AllocError> {
    let (front, end) = around_name(lack);
    let mut text = first_line(alloc, 704, b"wish", recipe.line)?;
    text.extend_from_slice(front)?;
    text.extend_from_slice(&recipe.name)?;
    text.extend_from_slice(end)?;
    Ok(text)
}

/// Why the build of a recipe cannot be made.
fn lines_on(
    alloc: Global,
    recipe: &RefusedRecipe,
    indexes: &mut Indexes<'_, '_>,
) -> Result<Vec<u8>, AllocError> {
    match &recipe.stop {
        BuildStop::UnknownSource => without_source(alloc, recipe, indexes),
        BuildStop::NotGiven(name) => without_output(alloc, recipe, name),
        BuildStop::NothingGiven(lack) => without_packages(alloc, recipe, *lack),
        BuildStop::OutOfMemory => Err(AllocError),
    }
}

/// Why the builds of recipes cannot be made.
pub fn recipe_lines(
    alloc: Global,
    refused: &[RefusedRecipe],
    indexes: &mut Indexes<'_, '_>,
) -> Result<Vec<u8>, AllocError> {
    let mut text = Vec::new(alloc);
    for recipe in refused {
        text.extend_from_slice(&lines_on(alloc, recipe, indexes)?)?;
    }
    Ok(text)
}

fn chroot_line(alloc: Global, chroot: &[u8]) -> Result<Vec<u8>, AllocError> {
    let mut text = Vec::new(alloc);
    push_pieces(&mut text, &[b"refused 705 chroot ", chroot, b"\n"])?;
    Ok(text)
}

fn with_entry(alloc: Global, chroot: &[u8], entry: &Entry) -> Result<Vec<u8>, AllocError> {
    let mut text = chroot_line(alloc, chroot)?;
    text.extend_from_slice(b"  the archive's index has nothing that meets ")?;
    push_entry(&mut text, entry)?;
    text.extend_from_slice(b"\n")?;
    Ok(text)
}

fn with_name(alloc: Global, chroot: &[u8], name: &[u8]) -> Result<Vec<u8>, AllocError> {
    let mut text = chroot_line(alloc, chroot)?;
    push_pieces(&mut text, &[b"  two versions of ", name, b" are wanted\n"])?;
    Ok(text)
}

/// The lines of a refusal of texts that were given, or made of these.
pub fn refusal_lines(
    alloc: Global,
    inputs: Inputs,
    refusal: &Refusal,
) -> Result<Vec<u8>, AllocError> {
    match refusal {
        Refusal::Fault(name, fault) => given_lines(alloc, inputs, name, fault),
        Refusal::Made(fault, line) => made_lines(alloc, fault, line),
        Refusal::Unmet(chroot, entry) => with_entry(alloc, chroot, entry),
        Refusal::Twice(chroot, name) => with_name(alloc, chroot, name),
    }
}
