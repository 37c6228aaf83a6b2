//! The versions under which builds give their packages.

use crate::refusals::{Stop, made_fault};
use deb_text::Fault;
use deb_text::files::PACKAGES;
use deb_version::Version;
use import_closure::{Build, Given, Shelf, Variant, Variants, cut_count, further_version};
use std::alloc::{AllocError, Global};

/// The version under which a build gives a package, after so many builds of it: that of the source
/// that is built, where the package is one that stands in.
pub fn version_text(
    alloc: Global,
    build: &Build,
    given: &Given,
    before: u32,
) -> Result<Vec<u8>, AllocError> {
    let text = given.version.text();
    if let Some(stand_in) = &build.stand_in {
        if cut_count(text).stem == stand_in.text() {
            return further_version(alloc, build.source.version.text(), before);
        }
    }
    further_version(alloc, text, before)
}

/// The same as a version.
///
/// # Errors
///
/// Where it is too long for one.
pub fn version_of(
    alloc: Global,
    build: &Build,
    given: &Given,
    before: u32,
) -> Result<Version, Stop> {
    let text = version_text(alloc, build, given, before)?;
    match Version::parse(alloc, &text) {
        Ok(version) => Ok(version),
        Err(error) => Err(made_fault(alloc, Fault::place(PACKAGES, 0, error.code), b"")),
    }
}

/// Tells whether one of the versions that a build would give is there already.
fn is_taken(
    alloc: Global,
    shelf: &Shelf,
    taken: &Variants,
    build: &Build,
    before: u32,
) -> Result<bool, Stop> {
    for number in &build.outputs {
        if let Some(given) = shelf.given(*number) {
            let version = version_of(alloc, build, given, before)?;
            if taken.has(&given.name, &version) {
                return Ok(true);
            }
        }
    }
    Ok(false)
}

/// After how many builds of its version a build is the next one.
fn builds_before(
    alloc: Global,
    shelf: &Shelf,
    taken: &Variants,
    build: &Build,
) -> Result<u32, Stop> {
    for before in 0..u32::MAX {
        if !is_taken(alloc, shelf, taken, build, before)? {
            return Ok(before);
        }
    }
    Err(Stop::OutOfMemory)
}

/// Adds what a build gives to variants.
fn add_outputs(
    alloc: Global,
    shelf: &Shelf,
    taken: &mut Variants,
    build: &Build,
    before: u32,
    recipe: u32,
) -> Result<(), Stop> {
    for number in &build.outputs {
        if let Some(given) = shelf.given(*number) {
            let variant = Variant {
                version: version_of(alloc, build, given, before)?,
                number: *number,
                recipe: Some(recipe),
            };
            taken.add(alloc, &given.name, variant)?;
        }
    }
    Ok(())
}

fn push_count(counts: &mut Vec<u32>, count: u32) -> Result<(), AllocError> {
    counts.push(count)?;
    Ok(())
}

/// Adds what builds give to the variants that are there at the beginning, and gives for each after
/// how many builds of its version it is the next one.
///
/// # Errors
///
/// Where a version would be too long, or memory is refused.
pub fn count_builds(
    alloc: Global,
    shelf: &Shelf,
    taken: &mut Variants,
    builds: &[Build],
) -> Result<Vec<u32>, Stop> {
    let mut counts = Vec::new(alloc);
    let mut recipe = 0u32;
    for build in builds {
        let before = builds_before(alloc, shelf, taken, build)?;
        add_outputs(alloc, shelf, taken, build, before, recipe)?;
        push_count(&mut counts, before)?;
        recipe = recipe.saturating_add(1);
    }
    Ok(counts)
}
