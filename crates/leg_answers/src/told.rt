//! What a leg has published, and by which recipes.

ghost use Rattle.std.specs.Prelude.{◌≡◌, IfOk, IfSome};
ghost use Rattle.farm_model.specs.Common.{contains, outputs, same, IsKnown};
ghost use Rattle.leg_answers.specs.Stories.{IsGivenBy};
ghost use Rattle.leg_laws.specs.Named.{item_of};

use farm_universe::{Universe, Variant};
use rest_farm::{Item, known_item};
use std::alloc::{AllocError, Global};

/// A package in a version that was published, and the number of a recipe that gives it.
#[derive(Drop)]
pub struct Told {
    pub recipe: u32,
    pub item: Item,
}

#[tactic(auto, unfolding(farm_model::specs::Packages::same))]
fn is_same(given: Variant, variant: Variant) -> bool
    ensures { result ≡ same given variant }
{
    given.name == variant.name && given.bit == variant.bit
}

fn gives(farm: &Universe, recipe: u32, variant: Variant) -> bool
    ensures { result ≡ contains (outputs farm.now recipe) variant }
{
    farm.outputs(recipe)
        .iter()
        .any(|given| is_same(*given, variant))
}

/// The first recipe of a farm that gives a variant.
fn recipe_of(farm: &Universe, variant: Variant) -> Option<u32>
    ensures { IfSome result (IsGivenBy farm.now variant) }
{
    for recipe in 0..farm.recipes() {
        if gives(farm, recipe, variant) {
            return Some(recipe);
        }
    }
    None
}

/// What is told of a variant that was published: the package in its version, and a recipe that gives
/// it. `None` of what no run can have published.
pub fn told_of(alloc: Global, farm: &Universe, variant: Variant) -> Result<Option<Told>, AllocError>
    ensures recipe { IfOk result (λ told. IfSome told (λ t. IsGivenBy farm.now variant t.recipe)) }
    ensures item { IfOk result (λ told. IfSome told (λ t. IsKnown farm.now variant
        → t.item ≡ item_of farm.now variant)) }
{
    let Some(item) = known_item(alloc, farm, variant)? else {
        return Ok(None);
    };
    match recipe_of(farm, variant) {
        Some(recipe) => Ok(Some(Told { recipe, item })),
        None => Ok(None),
    }
}
