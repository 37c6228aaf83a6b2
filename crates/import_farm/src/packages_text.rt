//! The texts of packages and of sources.

ghost use Rattle.std.specs.Prelude.{OnOk};
ghost use Rattle.import_farm.specs.Made.{IsMadeOf, IsOneOf, IsWhole, IsWholeOrAnew};

use crate::taken::Taken;
use crate::versions::version_text;
use crate::{Sister, Sisters, push_block, push_rewritten};
use deb_version::Version;
use import_closure::{Build, Given, Shelf, Variant, Variants};
use import_wish::WishedRecipe;
use std::alloc::{AllocError, Global};

/// The version under which a build gives a package. That it is one was seen when the builds were
/// numbered, so memory alone can be wanting.
fn given_version(
    alloc: Global,
    build: &Build,
    given: &Given,
    before: u32,
) -> Result<Version, AllocError> {
    let text = version_text(alloc, build, given, before)?;
    match Version::parse(alloc, &text) {
        Ok(version) => Ok(version),
        Err(_) => Err(AllocError),
    }
}

fn sister_of(
    alloc: Global,
    build: &Build,
    given: &Given,
    before: u32,
) -> Result<Sister, AllocError> {
    Ok(Sister {
        name: Vec::from_slice(alloc, &given.name)?,
        old: Vec::from_slice(alloc, given.version.text())?,
        new: given_version(alloc, build, given, before)?,
    })
}

/// The packages that a build gives.
fn sisters_of(
    alloc: Global,
    shelf: &Shelf,
    build: &Build,
    before: u32,
) -> Result<Vec<Sister>, AllocError> {
    let mut sisters = Vec::new(alloc);
    for number in &build.outputs {
        if let Some(given) = shelf.given(*number) {
            sisters.push(sister_of(alloc, build, given, before)?)?;
        }
    }
    Ok(sisters)
}

/// The sisters of each build.
fn all_sisters(
    alloc: Global,
    shelf: &Shelf,
    taken: &Taken,
) -> Result<Vec<Vec<Sister>>, AllocError> {
    let mut all = Vec::new(alloc);
    for (build, before) in taken.builds.iter().zip(&taken.numbered.counts) {
        all.push(sisters_of(alloc, shelf, build, *before)?)?;
    }
    Ok(all)
}

/// Puts the block of a number behind a text as it stands, with an empty line behind it.
fn push_whole(text: &mut Vec<u8>, blocks: &[&[u8]], number: u32) -> Result<(), AllocError>
    ensures { OnOk result (IsMadeOf (IsWhole (IsOneOf blocks.now)) text.old.items text.new.items) }
{
    let Some(block) = blocks.get(number as usize) else {
        return Ok(());
    };
    push_block(text, block)?;
    text.extend_from_slice(b"\n")?;
    Ok(())
}

/// The same where other paragraphs come under another version.
fn push_plain(text: &mut Vec<u8>, blocks: &[&[u8]], number: u32) -> Result<(), AllocError>
    ensures { OnOk result (IsMadeOf (IsWholeOrAnew (IsOneOf blocks.now)) text.old.items text.new.items) }
{
    push_whole(text, blocks, number)?;
    Ok(())
}

/// Puts the block of a number behind a text under the version of a build, with an empty line behind
/// it.
fn push_anew(
    text: &mut Vec<u8>,
    blocks: &[&[u8]],
    number: u32,
    of: &Sister,
    sisters: Sisters,
) -> Result<(), AllocError>
    ensures { OnOk result (IsMadeOf (IsWholeOrAnew (IsOneOf blocks.now)) text.old.items text.new.items) }
{
    let Some(block) = blocks.get(number as usize) else {
        return Ok(());
    };
    push_rewritten(text, block, of, sisters)?;
    text.extend_from_slice(b"\n")?;
    Ok(())
}

/// The package of a block among those of a build, where it is given under another version.
fn renamed<'a>(shelf: &Shelf, number: u32, sisters: Sisters<'a>) -> Option<&'a Sister> {
    let given = shelf.given(number)?;
    sisters.all.iter().find(|sister| sister.name == given.name
        && sister.old.as_slice() != sister.new.text())
}

/// Puts a package that a build gives behind a text.
fn push_output(
    text: &mut Vec<u8>,
    shelf: &Shelf,
    blocks: &[&[u8]],
    number: u32,
    sisters: Sisters,
) -> Result<(), AllocError>
    ensures { OnOk result (IsMadeOf (IsWholeOrAnew (IsOneOf blocks.now)) text.old.items text.new.items) }
{
    match renamed(shelf, number, sisters) {
        Some(of) => push_anew(text, blocks, number, of, sisters),
        None => push_plain(text, blocks, number),
    }
}

fn push_variant(
    text: &mut Vec<u8>,
    shelf: &Shelf,
    blocks: &[&[u8]],
    taken: &Taken,
    all: &[Vec<Sister>],
    variant: &Variant,
) -> Result<(), AllocError>
    ensures { OnOk result (IsMadeOf (IsWholeOrAnew (IsOneOf blocks.now)) text.old.items text.new.items) }
{
    let Some(recipe) = variant.recipe else {
        return push_plain(text, blocks, variant.number);
    };
    let Some(build) = taken.builds.get(recipe as usize) else {
        return Ok(());
    };
    let Some(sisters) = all.get(recipe as usize) else {
        return Ok(());
    };
    let sisters = Sisters {
        all: sisters,
        any_operator: build.stand_in.is_some(),
    };
    push_output(text, shelf, blocks, variant.number, sisters)
}

/// Puts the packages behind a text, in the order of their names and versions, each with an empty
/// line behind it. They stand in these blocks.
pub fn push_packages(
    alloc: Global,
    text: &mut Vec<u8>,
    shelf: &Shelf,
    blocks: &[&[u8]],
    taken: &Taken,
) -> Result<(), AllocError>
    ensures { OnOk result (IsMadeOf (IsWholeOrAnew (IsOneOf blocks.now)) text.old.items text.new.items) }
{
    let all = all_sisters(alloc, shelf, taken)?;
    for variants in taken.numbered.variants.by_name.values() {
        for variant in variants {
            push_variant(text, shelf, blocks, taken, &all, variant)?;
        }
    }
    Ok(())
}

/// The source of a build.
fn source_of(build: &Build) -> Result<Variant, AllocError> {
    Ok(Variant {
        version: build.source.version.clone()?,
        number: build.source.number,
        recipe: None,
    })
}

/// The sources of builds, by name and version.
pub fn chosen_sources(
    alloc: Global,
    recipes: &[WishedRecipe],
    builds: &[Build],
) -> Result<Variants, AllocError> {
    let mut chosen = Variants::new(alloc);
    for (wished, build) in recipes.iter().zip(builds) {
        chosen.add(alloc, &wished.source.name, source_of(build)?)?;
    }
    Ok(chosen)
}

/// Puts sources behind a text, each with an empty line behind it. They stand in these blocks.
pub fn push_sources(
    text: &mut Vec<u8>,
    blocks: &[&[u8]],
    chosen: &Variants,
) -> Result<(), AllocError>
    ensures { OnOk result (IsMadeOf (IsWhole (IsOneOf blocks.now)) text.old.items text.new.items) }
{
    for variants in chosen.by_name.values() {
        for variant in variants {
            push_whole(text, blocks, variant.number)?;
        }
    }
    Ok(())
}
