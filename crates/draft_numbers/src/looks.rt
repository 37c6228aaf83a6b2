//! What a universe says of variants and recipes, asked for by any number.

ghost use Rattle.std.specs.Prelude.{◌≡◌, ◌≤◌};
ghost use Rattle.farm_model.specs.Packages.{variants};

use deb_version::Version;
use draft_search::Facts;
use farm_universe::{PackageRelations, Recipe, Universe, Variant};
use std::alloc::{AllocError, Global};

/// How many variants a name has: none where the universe does not have the name.
#[tactic(auto, using(farm_universe::proofs::PlaceLaws::no_variants))]
pub(crate) fn variant_count(universe: &Universe, name: u32) -> u32
    ensures number { result ≡ variants universe.now name }
    ensures few { result ≤ 64 }
{
    if name < universe.names() {
        universe.variants(name)
    } else {
        0
    }
}

/// All variants, in the order of their names and versions.
pub(crate) fn all_variants(alloc: Global, universe: &Universe) -> Result<Vec<Variant>, AllocError> {
    let mut all = Vec::new(alloc);
    for name in 0..universe.names() {
        for bit in 0..variant_count(universe, name) {
            all.push(Variant { name, bit })?;
        }
    }
    Ok(all)
}

/// The relation fields of a variant, if there is one.
pub(crate) fn relations_of<'a>(
    universe: &'a Universe,
    variant: Variant,
) -> Option<&'a PackageRelations> {
    if variant.bit < variant_count(universe, variant.name) {
        Some(universe.relations(variant))
    } else {
        None
    }
}

/// The name and the version of a variant, if there is one.
pub(crate) fn version_of<'a>(
    universe: &'a Universe,
    variant: Variant,
) -> Option<(&'a [u8], &'a Version)> {
    if variant.name < universe.names() && variant.bit < universe.variants(variant.name) {
        Some((universe.name_text(variant.name), universe.version(variant)))
    } else {
        None
    }
}

/// The recipe of a number, if there is one.
pub(crate) fn recipe_of<'a>(universe: &'a Universe, number: u32) -> Option<&'a Recipe> {
    if number < universe.recipes() {
        Some(universe.recipe(number))
    } else {
        None
    }
}

/// Tells whether a variant is in the archive at the beginning.
fn is_initial(universe: &Universe, variant: Variant) -> bool {
    variant.name < universe.names()
        && variant.bit < 64
        && universe.initial(variant.name) & 1 << variant.bit != 0
}

/// What is known of a variant, but for who gives it.
pub(crate) fn facts_of(universe: &Universe, variant: Variant) -> Facts {
    let is_there = variant.bit < variant_count(universe, variant.name);
    Facts {
        name: variant.name as usize,
        bit: variant.bit as usize,
        size: if is_there { universe.size(variant) } else { 0 },
        is_essential: is_there && universe.essential(variant),
        is_initial: is_initial(universe, variant),
        giver: None,
    }
}
