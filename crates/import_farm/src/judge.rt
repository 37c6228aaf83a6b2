//! The texts that were made, judged as every command reads them, and what is told of them.

ghost use Rattle.std.specs.Prelude.{◌≡◌, All, IfOk, OnOk, Ok};
ghost use Rattle.std.specs.List.{list_any};
ghost use Rattle.farm_model.specs.Packages.{outputs};
ghost use Rattle.farm_universe.specs.UniverseText.{universe_of};
ghost use Rattle.import_wish.specs.Wish.{wish_view};
ghost use Rattle.import_farm.specs.Imported.{AreUnmet, IsFarmOf, IsOutput, IsUniverseOf, archive_of, is_same};
ghost use Rattle.import_farm.specs.Notes.{HasNotes};

use crate::counts::{COUNTS, Count};
use crate::farm_names::has_names;
use crate::imported::ImportedTexts;
use crate::refusals::{Stop, made_fault};
use crate::taken::{Given, Taken};
use crate::tell::{Farm, Judgement, Tell, Told};
use crate::written::Written;
use deb_profile::{ProfileSet, reduce};
use deb_relation::Relations;
use deb_text::Fault;
use deb_text::files::{FARM, PACKAGES};
use farm_lookup::{Unmet, unmet_needs};
use farm_universe::{Universe, Variant};
use import_closure::{Shelf, SourceShelf, Variant as TakenVariant};
use std::alloc::{AllocError, Global};

/// The line of a fault in the texts that were made: empty where the fault has none.
fn line_of(texts: &ImportedTexts, fault: Fault) -> &[u8] {
    let text: &[u8] = match fault.file {
        PACKAGES => &texts.packages,
        FARM => &texts.farm,
        _ => &texts.sources,
    };
    let mut number: u32 = 1;
    for line in text.split(|byte| *byte == b'\n') {
        if number == fault.line {
            return line;
        }
        number = number.saturating_add(1);
    }
    b""
}

/// Reads the texts that were made, as every command reads them.
fn read_made(alloc: Global, texts: &ImportedTexts) -> Result<Universe, Stop>
    ensures { IfOk result (λ universe. universe_of texts.now.packages.items
        texts.now.sources.items texts.now.farm.items ≡ Ok universe) }
{
    match Universe::read(alloc, &texts.packages, &texts.sources, &texts.farm) {
        Ok(universe) => Ok(universe),
        Err(refused) => {
            let fault = refused.fault;
            Err(made_fault(alloc, fault, line_of(texts, fault)))
        }
    }
}

/// Tells whether two variants are the same.
fn is_same(a: Variant, b: Variant) -> bool
    ensures { result ≡ is_same a b }
{
    a.name == b.name && a.bit == b.bit
}

/// Tells whether the recipe of a number gives a variant.
fn gives(universe: &Universe, recipe: u32, variant: Variant) -> bool
    ensures { result ≡ list_any (is_same variant) (outputs universe.now recipe) }
{
    universe
        .outputs(recipe)
        .iter()
        .any(|given| is_same(variant, *given))
}

/// Puts a variant behind others that builds give, and whose needs are wanted, if it is one.
fn push_output(
    wanted: &mut Vec<Variant>,
    universe: &Universe,
    taken: &Taken,
    variant: Variant,
    of: &TakenVariant,
) -> Result<(), AllocError>
    requires { All (IsOutput universe.now) wanted.old.items }
    ensures { OnOk result (All (IsOutput universe.now) wanted.new.items) }
{
    let Some(recipe) = of.recipe else {
        return Ok(());
    };
    if taken.there.closure.is_asked(of.number) && gives(universe, recipe, variant) {
        wanted.push(variant)?;
        return Ok(());
    }
    Ok(())
}

/// The same of the variants of a name.
fn push_wanted(
    wanted: &mut Vec<Variant>,
    universe: &Universe,
    taken: &Taken,
    name: u32,
    variants: &[TakenVariant],
) -> Result<(), AllocError>
    requires { All (IsOutput universe.now) wanted.old.items }
    ensures { OnOk result (All (IsOutput universe.now) wanted.new.items) }
{
    let mut bit = 0u32;
    for variant in variants {
        push_output(wanted, universe, taken, Variant { name, bit }, variant)?;
        bit = bit.saturating_add(1);
    }
    Ok(())
}

/// What builds give, and whose needs are wanted.
fn wanted_outputs(
    alloc: Global,
    universe: &Universe,
    taken: &Taken,
) -> Result<Vec<Variant>, AllocError>
    ensures { IfOk result (λ wanted. All (IsOutput universe.now) wanted.items) }
{
    let mut wanted = Vec::new(alloc);
    for name in 0..universe.names() {
        if let Some(variants) = taken
            .numbered
            .variants
            .by_name
            .get(universe.name_text(name))
        {
            push_wanted(&mut wanted, universe, taken, name, variants)?;
        }
    }
    Ok(wanted)
}

/// What the wish wants to be there at the beginning, as the architecture of a farm leaves it;
/// nothing where it does not say.
fn archive_of(alloc: Global, of: Given, universe: &Universe) -> Result<Relations, AllocError>
    ensures { IfOk result (λ archive.
        archive ≡ archive_of (wish_view of.entry.wish.now) universe.now) }
{
    match &of.wish.head.archive {
        Some(field) => reduce(
            alloc,
            field,
            universe.arch_names(),
            &ProfileSet::none(alloc),
        ),
        None => Ok(Relations::from_entries(Vec::new(alloc))),
    }
}

/// What nothing in a farm meets, of what is asked for there.
fn unmet_in(
    alloc: Global,
    of: Given,
    taken: &Taken,
    universe: &Universe,
) -> Result<Vec<Unmet>, AllocError>
    ensures { IfOk result (λ unmet.
        AreUnmet (wish_view of.entry.wish.now) universe.now unmet.items) }
{
    let archive = archive_of(alloc, of, universe)?;
    let wanted = wanted_outputs(alloc, universe, taken)?;
    unmet_needs(alloc, universe, &archive, &wanted)
}

/// Looks whether a farm has what the wish names, and gives what nothing in it meets.
fn judge(alloc: Global, of: Given, taken: &Taken, universe: &Universe) -> Result<Vec<Unmet>, Stop>
    ensures { IfOk result (λ unmet.
        IsUniverseOf (wish_view of.entry.wish.now) universe.now unmet.items) }
{
    if !has_names(universe, &of.wish.items) {
        return Err(Stop::Wrong);
    }
    Ok(unmet_in(alloc, of, taken, universe)?)
}

/// Judges a farm, and tells of it.
fn tell_farm<T: Tell>(
    alloc: Global,
    shelf: &mut Shelf,
    sources: &SourceShelf,
    told: Told,
    counts: &[Count; COUNTS],
    universe: &Universe,
) -> Result<Judgement, Stop>
    ensures farm { IfOk result (λ judgement. IsUniverseOf
        (wish_view told.entry.read.of.wish.now) universe.now judgement.unmet.items) }
    ensures noted { IfOk result (λ judgement.
        HasNotes judgement.unmet.items judgement.lines.items) }
{
    let unmet = judge(alloc, told.read.of, told.taken, universe)?;
    let farm = Farm {
        universe,
        counts,
        unmet: &unmet,
    };
    let lines = T::farm_lines(alloc, shelf, sources, told, farm)?;
    Ok(Judgement { unmet, lines })
}

/// Reads the texts that were made, judges their farm, and tells of it.
///
/// # Errors
///
/// A refusal where the texts are not read without a fault; that they are wrong where the farm does
/// not have what the wish names; want of memory.
pub fn tell<T: Tell>(
    alloc: Global,
    shelf: &mut Shelf,
    sources: &SourceShelf,
    told: Told,
    written: &Written,
) -> Result<Judgement, Stop>
    ensures farm { IfOk result (λ judgement. IsFarmOf
        (wish_view told.entry.read.of.wish.now) written.now.texts judgement.unmet.items) }
    ensures noted { IfOk result (λ judgement.
        HasNotes judgement.unmet.items judgement.lines.items) }
{
    let universe = read_made(alloc, &written.texts)?;
    tell_farm::<T>(alloc, shelf, sources, told, &written.counts, &universe)
}
