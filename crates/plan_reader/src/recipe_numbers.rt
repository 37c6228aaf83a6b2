//! The recipes of a universe, found by their names.

ghost use Rattle.std.specs.Prelude.{◌≡◌, ◌∷◌, ◌++◌, [], ℕ, List, length, IfOk, OnOk};
ghost use Rattle.plan_reader.specs.Drafts.{recipe_names};
ghost use Rattle.plan_reader.specs.RecipeNumbers.{AreFirstPlaces};

use farm_universe::Universe;
use indexmap::IndexMap;
use std::alloc::{AllocError, Global};

/// Puts the number of a recipe under its name, unless a recipe before it is called so.
fn put_name(
    alloc: Global,
    numbers: &mut IndexMap<Vec<u8>, u32>,
    name: &[u8],
    number: u32,
) -> Result<(), AllocError>
    ensures { OnOk result ((before : List (List ℕ)) → number ≡ length before
        → AreFirstPlaces before numbers.old.entries
        → AreFirstPlaces (before ++ name.now ∷ []) numbers.new.entries) }
{
    if numbers.contains_key(name) {
        return Ok(());
    }
    numbers.insert(Vec::from_slice(alloc, name)?, number)?;
    Ok(())
}

/// The number of the first recipe of each name.
pub fn recipe_numbers(
    alloc: Global,
    universe: &Universe,
) -> Result<IndexMap<Vec<u8>, u32>, AllocError>
    ensures { IfOk result (λ numbers. AreFirstPlaces (recipe_names universe.now) numbers.entries) }
{
    let mut numbers = IndexMap::new(alloc);
    for recipe in 0..universe.recipes() {
        put_name(alloc, &mut numbers, universe.recipe(recipe).name(), recipe)?;
    }
    Ok(numbers)
}
