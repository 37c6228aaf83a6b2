//! What a publish that is open may have put into the archive by now.

ghost use Rattle.std.specs.Prelude.{◌≡◌, position};
ghost use Rattle.leg_laws.specs.Named.{is_listed};
ghost use Rattle.rest_farm.specs.Pending as spec;

use crate::fate::{Fate, WantedRecipe};
use crate::item::Item;
use crate::items::Items;

/// Tells whether an item is in a list, which is short.
fn is_listed(items: &[Item], item: &Item) -> bool
    ensures { result ≡ is_listed items.now item.now }
{
    items.iter().any(|other| other.is_same(item))
}

/// Tells whether the publish of an item that was open is of the build that a recipe counts as.
fn is_its_own(fate: Fate, recipe: &WantedRecipe, item: &Item) -> bool
    ensures { result ≡ spec.is_its_own fate recipe.now item.now }
{
    fate.is_built() && recipe.has_ended && (recipe.is_open || is_listed(&recipe.built_before, item))
}

/// Tells whether an open publish of another build may have published an item of a recipe.
fn clashes(pending: &Items, fate: Fate, recipe: &WantedRecipe, item: &Item) -> bool
    ensures { result ≡ spec.clashes pending.now fate recipe.now item.now }
{
    pending.has_item(item) && !is_its_own(fate, recipe, item)
}

/// The place of the first thing that a recipe gives which the publish of another build may have put
/// into the archive, by this run or an earlier one (725).
pub fn first_clash(pending: &Items, fate: Fate, recipe: &WantedRecipe) -> Option<usize>
    ensures { result ≡ position (spec.clashes pending.now fate recipe.now)
        recipe.now.outputs.items }
{
    recipe
        .outputs
        .iter()
        .position(|item| clashes(pending, fate, recipe, item))
}
