//! Whether a farm has the recipes of a wish.

ghost use Rattle.std.specs.Prelude.{◌≡◌, IsTrue, map};
ghost use Rattle.deb_text.specs.Lists.{lists};
ghost use Rattle.farm_model.specs.Packages.{recipe};

use deb_text::is_same_text;
use farm_universe::Universe;

/// Tells whether the recipe of a number has this name.
fn is_recipe(universe: &Universe, number: u32, name: &[u8]) -> bool
    ensures { IsTrue result → (recipe universe.now number).name ≡ name.now }
{
    is_same_text(universe.recipe_name(number), name)
}

/// Tells whether the recipes of a farm have these names, in their order.
pub fn has_recipes(universe: &Universe, names: &[Vec<u8>]) -> bool
    ensures { IsTrue result → map (λ recipe. recipe.name) universe.now.recipes ≡ lists names.now }
{
    if universe.recipes() as usize != names.len() {
        return false;
    }
    for at in 0..names.len() {
        if !is_recipe(universe, at as u32, &names[at]) {
            return false;
        }
    }
    true
}
