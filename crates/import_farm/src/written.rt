//! The three texts of what was taken, unless a limit is passed.

ghost use Rattle.std.specs.Prelude.{◌≡◌, IfOk};
ghost use Rattle.import_farm.specs.Drawn.{ArePackagesOf, AreSourcesOf, OnTexts};

use crate::counts::{COUNTS, Count, are_over, counts};
use crate::farm_text::push_farm;
use crate::imported::{HEAD, ImportedTexts};
use crate::packages_text::{chosen_sources, push_packages, push_sources};
use crate::refusals::Stop;
use crate::tell::{Tell, Told};
use import_closure::{Shelf, Variants};
use std::alloc::{AllocError, Global};

/// A text that begins as each does.
fn begun(alloc: Global) -> Result<Vec<u8>, AllocError>
    ensures { IfOk result (λ text. text.items ≡ HEAD.now) }
{
    Vec::from_slice(alloc, HEAD)
}

/// The three texts, and how much was taken.
#[derive(Drop)]
pub struct Written {
    pub texts: ImportedTexts,
    pub counts: [Count; COUNTS],
}

/// The three texts, or how much was taken, where that is over a limit.
#[derive(Drop)]
enum Drawn {
    Texts(Written),
    Over([Count; COUNTS]),
}

/// The texts of packages and of sources.
#[derive(Drop)]
struct Indexes {
    packages: Vec<u8>,
    sources: Vec<u8>,
}

fn write_packages(alloc: Global, told: Told, shelf: &Shelf) -> Result<Vec<u8>, AllocError>
    ensures { IfOk result (λ text. ArePackagesOf told.entry.read text.items) }
{
    let mut text = begun(alloc)?;
    let blocks = &told.read.of.packages.blocks;
    push_packages(alloc, &mut text, shelf, blocks, told.taken)?;
    Ok(text)
}

fn write_sources(alloc: Global, told: Told, chosen: &Variants) -> Result<Vec<u8>, AllocError>
    ensures { IfOk result (λ text. AreSourcesOf told.entry.read text.items) }
{
    let mut text = begun(alloc)?;
    push_sources(&mut text, told.read.sources, chosen)?;
    Ok(text)
}

fn write_indexes(
    alloc: Global,
    told: Told,
    shelf: &Shelf,
    chosen: &Variants,
) -> Result<Indexes, AllocError>
    ensures packages { IfOk result (λ made. ArePackagesOf told.entry.read made.packages.items) }
    ensures sources { IfOk result (λ made. AreSourcesOf told.entry.read made.sources.items) }
{
    let packages = write_packages(alloc, told, shelf)?;
    let sources = write_sources(alloc, told, chosen)?;
    Ok(Indexes { packages, sources })
}

fn write_farm(alloc: Global, told: Told, shelf: &Shelf) -> Result<Vec<u8>, AllocError> {
    let recipes = &told.read.of.wish.items.recipes;
    let mut farm = begun(alloc)?;
    push_farm(
        alloc,
        &mut farm,
        shelf,
        told.read.names,
        recipes,
        told.taken,
    )?;
    Ok(farm)
}

/// How many bytes the longer one of the texts of packages and of sources has behind its head.
fn longer(indexes: &Indexes) -> usize {
    let bytes = indexes.packages.len().max(indexes.sources.len());
    bytes.saturating_sub(HEAD.len())
}

fn write_texts(
    alloc: Global,
    told: Told,
    shelf: &Shelf,
    counts: [Count; COUNTS],
    indexes: Indexes,
) -> Result<Written, AllocError>
    ensures packages { IfOk result (λ written. written.texts.packages ≡ indexes.packages) }
    ensures sources { IfOk result (λ written. written.texts.sources ≡ indexes.sources) }
{
    let farm = write_farm(alloc, told, shelf)?;
    let texts = ImportedTexts {
        packages: indexes.packages,
        sources: indexes.sources,
        farm,
    };
    Ok(Written { texts, counts })
}

/// The three texts, if no limit is passed.
fn write_behind(
    alloc: Global,
    told: Told,
    shelf: &Shelf,
    sources: usize,
    indexes: Indexes,
) -> Result<Drawn, AllocError>
    requires packages { ArePackagesOf told.read indexes.packages.items }
    requires sources { AreSourcesOf told.read indexes.sources.items }
    ensures packages { IfOk result
        (OnTexts (λ texts. ArePackagesOf told.entry.read texts.packages.items)) }
    ensures sources { IfOk result
        (OnTexts (λ texts. AreSourcesOf told.entry.read texts.sources.items)) }
{
    let counts = counts(shelf, told.taken, sources, longer(&indexes));
    if are_over(&counts) {
        return Ok(Drawn::Over(counts));
    }
    Ok(Drawn::Texts(write_texts(alloc, told, shelf, counts, indexes)?))
}

/// The texts of what was taken, if no limit is passed.
fn draw(alloc: Global, told: Told, shelf: &Shelf) -> Result<Drawn, AllocError>
    ensures packages { IfOk result
        (OnTexts (λ texts. ArePackagesOf told.entry.read texts.packages.items)) }
    ensures sources { IfOk result
        (OnTexts (λ texts. AreSourcesOf told.entry.read texts.sources.items)) }
{
    let chosen = chosen_sources(alloc, &told.read.of.wish.items.recipes, &told.taken.builds)?;
    let counts = counts(shelf, told.taken, chosen.count(), 0);
    if are_over(&counts) {
        return Ok(Drawn::Over(counts));
    }
    let indexes = write_indexes(alloc, told, shelf, &chosen)?;
    write_behind(alloc, told, shelf, chosen.count(), indexes)
}

/// Writes the texts of what was taken, and counts it.
///
/// # Errors
///
/// The refusal 710 where a limit is passed, and want of memory.
pub fn draw_all<T: Tell>(alloc: Global, told: Told, shelf: &mut Shelf) -> Result<Written, Stop>
    ensures packages { IfOk result
        (λ written. ArePackagesOf told.entry.read written.texts.packages.items) }
    ensures sources { IfOk result
        (λ written. AreSourcesOf told.entry.read written.texts.sources.items) }
{
    match draw(alloc, told, shelf)? {
        Drawn::Texts(written) => Ok(written),
        Drawn::Over(counts) => Err(Stop::Told(T::limit_lines(alloc, shelf, told, &counts)?)),
    }
}
