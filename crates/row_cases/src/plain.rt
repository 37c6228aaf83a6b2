//! Each row beside the plain question, asked of each variant.

ghost use Rattle.std.specs.Prelude.{◌≡◌, ◌<◌, length};
ghost use Rattle.farm_model.specs.Packages as packages;
ghost use Rattle.farm_model.specs.Sound.{IsKnown};

use crate::asked::{Exclusion, excluded, satisfying};
use bit_rows::Row;
use deb_relation::{Atom, Entry, Relations};
use farm_universe::relations::{
    BreakersOf, ConflictsWith, IsBrokenBy, SatisfiesAtom, SatisfiesEntry, VariantTest,
    satisfies_any,
};
use farm_universe::{Universe, Variant};
use sat_rows::{Tables, entry_row, mask};
use std::alloc::{AllocError, Global};

/// The variants that satisfy some entry.
#[derive(Drop)]
struct SatisfiesAny<'a> {
    entries: &'a Relations,
}

impl VariantTest for SatisfiesAny<'_> {
    ghost test = { λ u t v. packages.satisfies_any u t.entries.now v };

    fn passes(&self, universe: &Universe, variant: Variant) -> bool {
        satisfies_any(universe, self.entries, variant)
    }
}

/// The variants of a name that pass.
fn plain_word<T: VariantTest>(universe: &Universe, name: u32, test: &T) -> u64
    requires fits { T.fits universe.now test.now }
    requires named { name < packages.names universe.now }
{
    let mut word = 0;
    for bit in 0..universe.variants(name) {
        if test.passes(universe, Variant { name, bit }) {
            word |= 1u64.checked_shl(bit).unwrap_or(0);
        }
    }
    word
}

/// Tells whether a row has each variant that passes, those of one name left out, and no other.
fn is_plain<T: VariantTest>(universe: &Universe, row: &Row, test: &T, but: Option<u32>) -> bool
    requires { T.fits universe.now test.now }
{
    for name in 0..universe.names() {
        let left_out = but == Some(name);
        let wanted = if left_out {
            0
        } else {
            plain_word(universe, name, test)
        };
        if name as usize >= row.len() || row.word(name as usize) != wanted {
            return false;
        }
    }
    row.len() == universe.names() as usize
}

/// Tells whether the mask of a relation has each version of a name that stands in it.
fn mask_is_plain(universe: &Universe, name: u32, atom: &Atom) -> bool
    requires { name < packages.names universe.now }
{
    let word = mask(universe, name, atom.relation());
    for bit in 0..universe.variants(name) {
        let is_set = word & 1u64.checked_shl(bit).unwrap_or(0) != 0;
        if is_set != universe.is_wanted(Variant { name, bit }, atom.relation()) {
            return false;
        }
    }
    true
}

/// The same of the relations of an entry's alternatives.
fn masks_are_plain(universe: &Universe, name: u32, entry: &Entry) -> bool
    requires { name < packages.names universe.now }
{
    entry
        .alternatives()
        .iter()
        .all(|atom| mask_is_plain(universe, name, atom))
}

/// Tells whether the rows of an entry of a variant are plain.
#[tactic(auto, using(farm_universe::proofs::PlaceLaws::named))]
fn entry_is_plain(
    alloc: Global,
    universe: &Universe,
    tables: &Tables,
    variant: Variant,
    number: usize,
) -> Result<bool, AllocError>
    requires same { tables.now ≡ universe.now }
    requires known { IsKnown universe.now variant }
    requires there { number < length (packages.depends universe.now variant) }
{
    let entry = universe.relations(variant).depends.entry(number);
    Ok(
        is_plain(
            universe,
            tables.depends(variant, number),
            &SatisfiesEntry { entry },
            None,
        ) && masks_are_plain(universe, variant.name, entry)
            && entry_row_is_plain(universe, &entry_row(alloc, universe, entry)?, entry)
            && entry_row_is_plain(universe, &tables.entry_row(alloc, universe, entry)?, entry),
    )
}

fn entry_row_is_plain(universe: &Universe, row: &Row, entry: &Entry) -> bool {
    is_plain(universe, row, &SatisfiesEntry { entry }, None)
}

/// Tells whether the rows of the entries of a variant are plain.
fn entries_are_plain(
    alloc: Global,
    universe: &Universe,
    tables: &Tables,
    variant: Variant,
) -> Result<bool, AllocError>
    requires same { tables.now ≡ universe.now }
    requires known { IsKnown universe.now variant }
{
    for number in 0..universe.relations(variant).depends.len() {
        if !entry_is_plain(alloc, universe, tables, variant, number)? {
            return Ok(false);
        }
    }
    pre_entries_are_plain(alloc, universe, tables, variant)
}

fn pre_entries_are_plain(
    alloc: Global,
    universe: &Universe,
    tables: &Tables,
    variant: Variant,
) -> Result<bool, AllocError>
    requires same { tables.now ≡ universe.now }
    requires known { IsKnown universe.now variant }
{
    for number in 0..universe.relations(variant).pre_depends.len() {
        if !pre_entry_is_plain(alloc, universe, tables, variant, number)? {
            return Ok(false);
        }
    }
    Ok(true)
}

fn pre_entry_is_plain(
    alloc: Global,
    universe: &Universe,
    tables: &Tables,
    variant: Variant,
    number: usize,
) -> Result<bool, AllocError>
    requires same { tables.now ≡ universe.now }
    requires known { IsKnown universe.now variant }
    requires there { number < length (packages.pre_depends universe.now variant) }
{
    let entry = universe.relations(variant).pre_depends.entry(number);
    for atom in entry.alternatives() {
        let row = satisfying(alloc, universe, tables, atom)?;
        if !is_plain(universe, &row, &SatisfiesAtom { atom }, None) {
            return Ok(false);
        }
    }
    Ok(is_plain(
        universe,
        tables.pre_depends(variant, number),
        &SatisfiesEntry { entry },
        None,
    ))
}

/// Tells whether the variants that a variant so excludes are those that pass.
fn excludes_plainly<T: VariantTest>(
    alloc: Global,
    universe: &Universe,
    tables: &Tables,
    kind: Exclusion,
    variant: Variant,
    test: &T,
) -> Result<bool, AllocError>
    requires same { tables.now ≡ universe.now }
    requires fits { T.fits universe.now test.now }
    requires known { IsKnown universe.now variant }
{
    let row = excluded(alloc, universe, tables, kind, variant)?;
    Ok(is_plain(universe, &row, test, Some(variant.name)))
}

/// Tells whether what a variant excludes is plain.
fn others_are_plain(
    alloc: Global,
    universe: &Universe,
    tables: &Tables,
    variant: Variant,
) -> Result<bool, AllocError>
    requires same { tables.now ≡ universe.now }
    requires known { IsKnown universe.now variant }
{
    let (conflicts, breaks) = (ConflictsWith { variant }, IsBrokenBy { variant });
    let broken_by = BreakersOf { variant };
    Ok(
        excludes_plainly(
            alloc,
            universe,
            tables,
            Exclusion::Conflicts,
            variant,
            &conflicts,
        )? && excludes_plainly(alloc, universe, tables, Exclusion::Breaks, variant, &breaks)?
            && excludes_plainly(
                alloc,
                universe,
                tables,
                Exclusion::BrokenBy,
                variant,
                &broken_by,
            )?,
    )
}

/// Tells whether the rows of a recipe are plain.
fn recipe_is_plain(universe: &Universe, tables: &Tables, number: u32) -> bool
    requires same { tables.now ≡ universe.now }
    requires known { number < length universe.now.recipes }
{
    let recipe = universe.recipe(number);
    for place in 0..recipe.needs().len() {
        let test = SatisfiesEntry {
            entry: recipe.needs().entry(place),
        };
        if !is_plain(universe, tables.needs(number, place), &test, None) {
            return false;
        }
    }
    let entries = recipe.clashes();
    is_plain(
        universe,
        tables.clashes(number),
        &SatisfiesAny { entries },
        None,
    )
}

/// The first variant of a name of which a row differs.
fn first_variant(
    alloc: Global,
    universe: &Universe,
    tables: &Tables,
    name: u32,
) -> Result<Option<u32>, AllocError>
    requires same { tables.now ≡ universe.now }
    requires named { name < packages.names universe.now }
{
    for bit in 0..universe.variants(name) {
        let variant = Variant { name, bit };
        if !others_are_plain(alloc, universe, tables, variant)?
            || !entries_are_plain(alloc, universe, tables, variant)?
        {
            return Ok(Some(bit));
        }
    }
    Ok(None)
}

/// The first recipe of which a row differs.
fn first_recipe(universe: &Universe, tables: &Tables) -> Option<u32>
    requires { tables.now ≡ universe.now }
{
    for number in 0..universe.recipes() {
        if !recipe_is_plain(universe, tables, number) {
            return Some(number);
        }
    }
    None
}

fn recipe_text(alloc: Global, differs: Option<u32>) -> Result<Vec<u8>, AllocError> {
    match differs {
        Some(number) => Ok(format!(in alloc; "recipe {number}")?.into_bytes()),
        None => Vec::from_slice(alloc, b"same"),
    }
}

/// Compares every row with the plain question: `same`, or the first variant or recipe of which a
/// row differs.
pub fn first_difference(
    alloc: Global,
    universe: &Universe,
    tables: &Tables,
) -> Result<Vec<u8>, AllocError>
    requires { tables.now ≡ universe.now }
{
    for name in 0..universe.names() {
        if let Some(bit) = first_variant(alloc, universe, tables, name)? {
            let name = universe.name_text(name).escape_ascii();
            return Ok(format!(in alloc; "variant {bit} of {name}")?.into_bytes());
        }
    }
    recipe_text(alloc, first_recipe(universe, tables))
}
