//! Texts that were made of what is left of a run, judged as every command reads them.

ghost use Rattle.std.specs.Prelude.{◌≡◌, ◌<◌, true, IfOk, IfSome, Some, length};
ghost use Rattle.deb_text.specs.Answers.{Gives, refusal_of};
ghost use Rattle.farm_model.specs.Common.{recipe};
ghost use Rattle.farm_universe.specs.UniverseText.{universe_of};
ghost use Rattle.leg_laws.specs.Named.{is_equal_item, item_of};
ghost use Rattle.rest_farm.specs.Rest.{AreItems, AreKept, IsJudged, IsKept, IsNext, IsOfFarm, IsRest, costs_nothing};

use crate::continuation::goes_on;
use crate::fate::{RecipeNames, WantedRecipe, fate_in};
use crate::item::Item;
use crate::items::Items;
use crate::left::{initial_items, variant_count};
use deb_text::{Fault, is_same_text};
use farm_core::Core;
use farm_universe::{Recipe, Universe, Variant};
use std::alloc::{AllocError, Global};

/// What a farm is to be that goes on: the run that has stopped, what came into its archive by hand,
/// what is withdrawn from it; and the recipes of the farm that is wanted, with what is said of their
/// names.
#[derive(Clone, Copy)]
pub struct Claims<'a> {
    pub run: &'a Core<'a>,
    pub brought: &'a Items,
    pub gone: &'a Items,
    pub names: RecipeNames<'a>,
    pub recipes: &'a [WantedRecipe],
}

/// The texts of a farm that goes on.
#[derive(Drop)]
pub struct RestTexts {
    pub packages: Vec<u8>,
    pub sources: Vec<u8>,
    pub farm: Vec<u8>,
}

/// What comes of texts that were made.
#[derive(Clone, Copy, Debug, PartialEq, Eq)]
pub enum Judged {
    /// They are of a farm that goes on.
    Right,
    /// They are not read: their first fault.
    Refused(Fault),
    /// They are of another farm, which is a fault of this program.
    Wrong,
}

/// Tells whether an item is a variant of a farm.
#[tactic(auto, using(farm_universe::proofs::PlaceLaws::named))]
fn is_variant(item: &Item, farm: &Universe, variant: Variant) -> bool
    ensures { result ≡ true → is_equal_item item.now (item_of farm.now variant) ≡ true }
{
    if variant.bit >= variant_count(farm, variant.name) {
        return false;
    }
    item.is_of(farm.name_text(variant.name), farm.version(variant))
}

/// Tells whether items are these variants of a farm, one for one.
fn are_items(items: &[Item], farm: &Universe, variants: &[Variant]) -> bool
    ensures { result ≡ true → AreItems farm.now items.now variants.now }
{
    if items.len() != variants.len() {
        return false;
    }
    for at in 0..items.len() {
        if !is_variant(&items[at], farm, variants[at]) {
            return false;
        }
    }
    true
}

/// Tells whether a build takes nothing and wants nothing.
fn costs_nothing(recipe: &Recipe) -> bool
    ensures { result ≡ costs_nothing recipe.now }
{
    recipe.steps() == 0
        && recipe.scratch() == 0
        && recipe.needs().is_empty()
        && recipe.clashes().is_empty()
}

/// Tells whether a recipe costs nothing, where it is built by now.
fn is_cost_kept(is_built: bool, recipe: &Recipe) -> bool
    ensures { result ≡ true → is_built ≡ true → costs_nothing recipe.now ≡ true }
{
    !is_built || costs_nothing(recipe)
}

/// Tells whether a recipe of a farm is one that is left.
fn is_kept(is_built: bool, of: &WantedRecipe, farm: &Universe, recipe: &Recipe) -> bool
    ensures { result ≡ true → IsKept farm.now is_built of.now recipe.now }
{
    if !is_same_text(recipe.name(), of.name.bytes()) {
        return false;
    }
    if !is_cost_kept(is_built, recipe) {
        return false;
    }
    are_items(&of.outputs, farm, recipe.outputs())
}

/// Tells whether the recipe of a number is one that is left.
fn is_kept_at(is_built: bool, of: &WantedRecipe, farm: &Universe, number: u32) -> bool
    ensures kept { result ≡ true → IsKept farm.now is_built of.now (recipe farm.now number) }
    ensures within { result ≡ true → number < length farm.now.recipes }
{
    if number >= farm.recipes() {
        return false;
    }
    is_kept(is_built, of, farm, farm.recipe(number))
}

/// How many recipes of a farm stand for those that are wanted, up to this one, given how many stand
/// for those ahead of it; `None` where the farm has another one next.
fn number_behind(
    of: Claims<'_>,
    archive: &Items,
    farm: &Universe,
    recipe: &WantedRecipe,
    number: u32,
) -> Option<u32>
    ensures { IfSome result (IsNext of.entry archive.now farm.now recipe.now number) }
{
    let _count = farm.recipes();
    let fate = fate_in(of.names, archive, of.gone, recipe);
    if !fate.is_left() {
        return Some(number);
    }
    if !is_kept_at(fate.is_built(), recipe, farm, number) {
        return None;
    }
    Some(number + 1)
}

/// Tells whether the recipes of a farm are those that are left, in their order, by what is in the
/// archive.
fn are_kept(of: Claims<'_>, archive: &Items, farm: &Universe) -> bool
    ensures { result ≡ true → AreKept of.entry archive.now farm.now }
{
    let mut number = 0u32;
    for recipe in of.recipes {
        match number_behind(of, archive, farm, recipe, number) {
            Some(next) => number = next,
            None => return false,
        }
    }
    farm.recipes() == number
}

/// Reads texts that were made, as every command reads them.
fn read_made(alloc: Global, texts: &RestTexts) -> Result<Universe, Fault>
    ensures { Gives refusal_of (λ farm. farm) result (universe_of texts.now.packages.items
        texts.now.sources.items texts.now.farm.items) }
{
    match Universe::read(alloc, &texts.packages, &texts.sources, &texts.farm) {
        Ok(farm) => Ok(farm),
        Err(refused) => Err(refused.fault),
    }
}

/// Tells whether a farm goes on where a run has stopped, with the recipes that are left.
fn is_rest(alloc: Global, of: Claims<'_>, farm: &Universe) -> Result<bool, AllocError>
    ensures { IfOk result (λ yes. yes ≡ true → IsRest of.entry farm.now) }
{
    let is_behind = goes_on(alloc, of.run, of.brought, of.gone, farm)?;
    if !is_behind {
        return Ok(false);
    }
    let archive = initial_items(alloc, farm)?;
    Ok(are_kept(of, &archive, farm))
}

fn judge_farm(alloc: Global, of: Claims<'_>, farm: &Universe) -> Result<Judged, AllocError>
    ensures { IfOk result (IsOfFarm of.entry farm.now) }
{
    if is_rest(alloc, of, farm)? {
        Ok(Judged::Right)
    } else {
        Ok(Judged::Wrong)
    }
}

fn refused(fault: Fault) -> Result<Judged, AllocError>
    ensures { IfOk result (λ judged. (judged ≡ Judged.Refused fault)
        × (refusal_of fault ≡ Some fault)) }
{
    if fault == Fault::MEMORY {
        return Err(AllocError);
    }
    Ok(Judged::Refused(fault))
}

/// Reads texts that were made, and looks whether their farm goes on where the run has stopped, with
/// the recipes that are left and no others.
pub fn judge(alloc: Global, of: Claims<'_>, texts: &RestTexts) -> Result<Judged, AllocError>
    ensures { IfOk result (IsJudged of.entry texts.now) }
{
    match read_made(alloc, texts) {
        Ok(farm) => judge_farm(alloc, of, &farm),
        Err(fault) => refused(fault),
    }
}
