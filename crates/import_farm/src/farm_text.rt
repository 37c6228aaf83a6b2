//! The farm text.

use crate::architectures::spaced;
use crate::lines::{push_number, push_package};
use crate::taken::{Chroot, Taken};
use crate::versions::version_text;
use deb_text::push_pieces;
use farm_model::Mode;
use import_closure::{Build, Shelf, Variants};
use import_wish::{MOST_SIZE, Way, WishedRecipe};
use std::alloc::{AllocError, Global};

/// Puts what stands between the items of a list behind a text, where one stands before.
fn push_between(text: &mut Vec<u8>, is_first: bool) -> Result<(), AllocError> {
    if is_first {
        return Ok(());
    }
    text.extend_from_slice(b",\n ")
}

/// Puts variants behind a text, an item a line.
fn push_variants(text: &mut Vec<u8>, variants: &Variants) -> Result<(), AllocError> {
    let mut is_first = true;
    for (name, list) in &variants.by_name {
        for variant in list {
            push_between(text, is_first)?;
            push_package(text, name, variant.version.text())?;
            is_first = false;
        }
    }
    text.extend_from_slice(b"\n")
}

fn push_outputs(
    alloc: Global,
    text: &mut Vec<u8>,
    shelf: &Shelf,
    build: &Build,
    before: u32,
) -> Result<(), AllocError> {
    let mut is_first = true;
    for number in &build.outputs {
        if let Some(given) = shelf.given(*number) {
            push_between(text, is_first)?;
            let version = version_text(alloc, build, given, before)?;
            push_package(text, &given.name, &version)?;
            is_first = false;
        }
    }
    text.extend_from_slice(b"\n")
}

/// The KiB of what a build gives.
fn outputs_size(shelf: &Shelf, build: &Build) -> u64 {
    let mut size: u64 = 0;
    for number in &build.outputs {
        if let Some(given) = shelf.given(*number) {
            size = size.saturating_add(given.size);
        }
    }
    size
}

/// How many steps a build takes, by the size of its source.
fn steps_of(way: &Way, build: &Build) -> u64 {
    match way.steps {
        Some(steps) => steps,
        None => build.size.saturating_add(100).min(MOST_SIZE),
    }
}

/// How much scratch space a build takes in KiB, by the sizes of its source and of what it gives.
fn scratch_of(way: &Way, build: &Build, outputs: u64) -> u64 {
    match way.scratch {
        Some(scratch) => scratch,
        None => {
            let twice = outputs.saturating_mul(2);
            build
                .size
                .saturating_mul(16)
                .saturating_add(twice)
                .min(MOST_SIZE)
        }
    }
}

fn push_mode(text: &mut Vec<u8>, mode: Mode) -> Result<(), AllocError> {
    match mode {
        Mode::Full => Ok(()),
        Mode::Arch => text.extend_from_slice(b"Mode: arch\n"),
        Mode::Indep => text.extend_from_slice(b"Mode: indep\n"),
    }
}

fn push_profiles(alloc: Global, text: &mut Vec<u8>, way: &Way) -> Result<(), AllocError> {
    let profiles = spaced(alloc, &way.profiles)?;
    if profiles.is_empty() {
        return Ok(());
    }
    push_pieces(text, &[b"Profiles: ", &profiles, b"\n"])
}

fn push_head(text: &mut Vec<u8>, wished: &WishedRecipe, build: &Build) -> Result<(), AllocError> {
    push_pieces(text, &[b"\nRecipe: ", &wished.name, b"\nSource: "])?;
    push_package(text, &wished.source.name, build.source.version.text())?;
    text.extend_from_slice(b"\n")
}

fn push_sizes(
    text: &mut Vec<u8>,
    shelf: &Shelf,
    way: &Way,
    build: &Build,
) -> Result<(), AllocError> {
    text.extend_from_slice(b"Steps: ")?;
    push_number(text, steps_of(way, build))?;
    text.extend_from_slice(b"\nScratch: ")?;
    push_number(text, scratch_of(way, build, outputs_size(shelf, build)))?;
    text.extend_from_slice(b"\nOutputs: ")
}

fn push_recipe(
    alloc: Global,
    text: &mut Vec<u8>,
    shelf: &Shelf,
    wished: &WishedRecipe,
    build: &Build,
    before: u32,
) -> Result<(), AllocError> {
    push_head(text, wished, build)?;
    push_mode(text, wished.way.mode)?;
    push_profiles(alloc, text, &wished.way)?;
    push_sizes(text, shelf, &wished.way, build)?;
    push_outputs(alloc, text, shelf, build, before)
}

fn push_chroot(text: &mut Vec<u8>, chroot: &Chroot) -> Result<(), AllocError> {
    push_pieces(text, &[b"\nChroot: ", &chroot.name, b"\nCapacity: "])?;
    push_number(text, chroot.capacity)?;
    text.extend_from_slice(b"\nPackages: ")?;
    push_variants(text, &chroot.members)
}

/// Puts the recipes behind a text, in the order of the wish.
fn push_recipes(
    alloc: Global,
    text: &mut Vec<u8>,
    shelf: &Shelf,
    recipes: &[WishedRecipe],
    taken: &Taken,
) -> Result<(), AllocError> {
    for at in 0..recipes.len() {
        if let Some(build) = taken.builds.get(at) {
            let before = taken.numbered.counts.get(at).copied().unwrap_or(0);
            push_recipe(alloc, text, shelf, &recipes[at], build, before)?;
        }
    }
    Ok(())
}

/// Puts the farm text behind a text: the names of the architecture, what is there at the beginning,
/// the recipes and the chroots.
pub fn push_farm(
    alloc: Global,
    text: &mut Vec<u8>,
    shelf: &Shelf,
    architectures: &[u8],
    recipes: &[WishedRecipe],
    taken: &Taken,
) -> Result<(), AllocError> {
    push_pieces(
        text,
        &[b"Architecture-Names: ", architectures, b"\nArchive: "],
    )?;
    push_variants(text, &taken.numbered.begin)?;
    push_recipes(alloc, text, shelf, recipes, taken)?;
    for chroot in &taken.there.chroots {
        push_chroot(text, chroot)?;
    }
    Ok(())
}
