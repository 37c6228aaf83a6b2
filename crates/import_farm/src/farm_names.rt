//! Whether a farm has the recipes and the base chroots of a wish.

ghost use Rattle.std.specs.Prelude.{◌≡◌, ◌<◌, ◌∷◌, [], IsTrue, codes, length, map};
ghost use Rattle.deb_text.specs.Lists.{lists};
ghost use Rattle.farm_model.specs.Packages.{base, recipe};
ghost use Rattle.import_wish.specs.Wish.{items_view};
ghost use Rattle.import_farm.specs.Imported.{HasNames, chroots_of};

use deb_text::is_same_text;
use farm_universe::Universe;
use import_wish::WishItems;

/// Tells whether the recipe of a number has this name.
fn is_recipe(universe: &Universe, number: u32, name: &[u8]) -> bool
    ensures { IsTrue result → (recipe universe.now number).name ≡ name.now }
{
    is_same_text(universe.recipe_name(number), name)
}

/// Tells whether the recipes of a farm have these names, in their order.
fn has_recipes(universe: &Universe, names: &[Vec<u8>]) -> bool
    ensures { IsTrue result → map (λ recipe. recipe.name) universe.now.recipes ≡ lists names.now }
{
    if universe.recipes() as usize != names.len() {
        return false;
    }
    for at in 0..names.len() {
        if !is_recipe(universe, at as u32, &names[at]) {
            return false;
        }
    }
    true
}

/// Tells whether the base chroot of a number has this name.
fn is_base(universe: &Universe, number: u32, name: &[u8]) -> bool
    requires { number < length universe.now.bases }
    ensures { IsTrue result → (base universe.now number).name ≡ name.now }
{
    is_same_text(universe.base(number).name(), name)
}

/// Tells whether the base chroots of a farm have these names, in their order.
fn has_bases(universe: &Universe, names: &[Vec<u8>]) -> bool
    ensures { IsTrue result → map (λ base. base.name) universe.now.bases ≡ lists names.now }
{
    if universe.bases() as usize != names.len() {
        return false;
    }
    for at in 0..names.len() {
        if !is_base(universe, at as u32, &names[at]) {
            return false;
        }
    }
    true
}

/// Tells whether a farm has one base chroot, that of a wish that names none.
fn has_buildd(universe: &Universe) -> bool
    ensures { IsTrue result → map (λ base. base.name) universe.now.bases ≡ codes "buildd" ∷ [] }
{
    if universe.bases() != 1 {
        return false;
    }
    is_base(universe, 0, b"buildd")
}

/// Tells whether a farm has the base chroots of a wish, in its order.
fn has_chroots(universe: &Universe, names: &[Vec<u8>]) -> bool
    ensures { IsTrue result → map (λ base. base.name) universe.now.bases ≡ chroots_of (lists names.now) }
{
    if names.is_empty() {
        has_buildd(universe)
    } else {
        has_bases(universe, names)
    }
}

/// Tells whether a farm has the recipes and the base chroots of a wish, in its order.
pub fn has_names(universe: &Universe, items: &WishItems) -> bool
    ensures { IsTrue result → HasNames (items_view items.now) universe.now }
{
    if !has_recipes(universe, &items.recipe_names) {
        return false;
    }
    has_chroots(universe, &items.chroot_names)
}
