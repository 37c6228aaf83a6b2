//! The recipes of the farm text.

ghost use Rattle.std.specs.Prelude.{◌≡◌, ◌+◌, ◌<◌, ◌≤◌, ◌++◌, ◌∷◌, [], IfOk, OnOk, IfErr, None, All, length, slice_get};
ghost use Rattle.std.specs.List.{list_any};
ghost use Rattle.std.specs.Str.{bytes_eq};
ghost use Rattle.deb_text.specs.Answers.{Gives};
ghost use Rattle.farm_universe.specs.Among.{there_and_passes};
ghost use Rattle.farm_universe.specs.FarmSteps.{taken_with};
ghost use Rattle.farm_universe.specs.FarmText.{recipes_with};
ghost use Rattle.farm_universe.specs.FarmView.{AreNamed, AreNew, AreOutputsOf, AreRecipeParts, AreRecipes, IsLand, IsNew, land_view};
ghost use Rattle.farm_universe.specs.RecipeSteps.{first_recipe_at};
ghost use Rattle.farm_universe.specs.RecipeText.{build_entries, is_build_over, recipe_name, new_outputs, recipe_at};
ghost use Rattle.farm_universe.specs.View.{refusal_of};

use crate::binary::room_behind;
use crate::build::Build;
use crate::error::FieldFault;
use crate::fields::{read_name, read_number_up_to, read_size};
use crate::land::Land;
use crate::limits::{MOST_ENTRIES, MOST_RECIPES, MOST_SIZE};
use crate::list::{has_some_bit, set_bits};
use crate::paragraph::Paragraph;
use crate::recipe::Recipe;
use crate::recipe_parts::{Outputs, RecipeParts};
use item_index::{Item, ItemIndex};
use std::alloc::Global;

/// The recipes so far, the words of the initial archive and of their outputs, and how many entries
/// they have.
#[derive(Drop)]
pub struct RecipeList {
    pub recipes: Vec<Recipe>,
    pub by_name: ItemIndex<usize>,
    pub taken: Vec<u64>,
    pub entries: usize,
}

/// Tells whether the recipe that an item is of has a name.
fn has_name(recipes: &[Recipe], item: &Item<usize>, name: &[u8]) -> bool
    ensures { result ≡ there_and_passes (λ r. bytes_eq name.now r.name)
        (slice_get recipes.now item.now.owner) }
{
    match recipes.get(item.owner) {
        Some(recipe) => name == recipe.name(),
        None => false,
    }
}

/// Tells whether the recipe of one of these items has a name.
fn some_has_name(recipes: &[Recipe], items: &[Item<usize>], name: &[u8]) -> bool
    ensures { result ≡ list_any (λ item. there_and_passes (λ r. bytes_eq name.now r.name)
        (slice_get recipes.now item.owner)) items.now }
{
    items.iter().any(|item| has_name(recipes, item, name))
}

/// Tells whether a recipe has a name.
fn is_given(list: &RecipeList, name: &[u8]) -> bool
    requires { AreNamed list.now.by_name list.now.recipes.items }
    ensures { result ≡ list_any (λ r. bytes_eq name.now r.name) list.now.recipes.items }
{
    some_has_name(&list.recipes, list.by_name.listed(name), name)
}

/// Reads a name that no recipe has yet.
fn read_recipe_name(alloc: Global, list: &RecipeList, given: &[u8]) -> Result<Vec<u8>, FieldFault>
    requires { AreNamed list.now.by_name list.now.recipes.items }
    ensures { Gives refusal_of (λ name. name.items) result
        (recipe_name list.now.recipes.items given.now) }
{
    let name = read_name(alloc, given)?;
    if is_given(list, &name) {
        return Err(FieldFault::Twice);
    }
    Ok(name)
}

/// The outputs, if they are new.
fn new_outputs(land: &Land, list: &RecipeList, paragraph: &Paragraph, read: Outputs) -> Outputs
    requires land { IsLand (land_view land.now) }
    requires list { AreRecipes (land_view land.now) list.now }
    requires read { AreOutputsOf (land_view land.now) paragraph.now read }
    ensures read { Gives refusal_of (λ vs. vs.items) result
        (new_outputs (land_view land.now) list.now.recipes.items paragraph.now) }
    ensures new { IfOk result
        (λ vs. AreNew (land_view land.now) list.now.recipes.items vs.items) }
{
    let outputs = read?;
    if has_some_bit(&list.taken, &outputs) {
        return Err(FieldFault::Taken);
    }
    Ok(outputs)
}

/// Tells whether there are too many recipes or entries with this build.
fn is_over(list: &RecipeList, build: &Build) -> bool
    requires { list.now.entries ≤ MOST_ENTRIES }
    ensures { result ≡ is_build_over (length list.now.recipes.items) list.now.entries build.now }
{
    list.recipes.len() >= MOST_RECIPES
        || room_behind(MOST_ENTRIES - list.entries, &build.needs)
            .and_then(|room| room_behind(room, &build.clashes))
            .is_none()
}

/// Reads a recipe behind others, where the first entries of its build tell whether there are too
/// many.
#[tactic(auto, unfolding(crate::specs::RecipeText::recipe_by))]
fn read_first_recipe(
    alloc: Global,
    land: &Land,
    list: &RecipeList,
    paragraph: &Paragraph,
    given: &[u8],
    parts: RecipeParts,
) -> Result<Recipe, FieldFault>
    requires land { IsLand (land_view land.now) }
    requires list { AreRecipes (land_view land.now) list.now }
    requires parts { AreRecipeParts (land_view land.now) paragraph.now parts }
    ensures read { Gives refusal_of (λ r. r) result
        (first_recipe_at (land_view land.now) list.now.recipes.items paragraph.now given.now) }
    ensures new { IfOk result (IsNew (land_view land.now) list.now.recipes.items) }
{
    let name = read_recipe_name(alloc, list, given)?;
    let build = parts.build?;
    let steps = read_number_up_to(MOST_SIZE, paragraph.needed(b"Steps")?)?;
    let scratch = read_size(paragraph.field(b"Scratch"))?;
    let outputs = new_outputs(land, list, paragraph, parts.outputs)?;
    if is_over(list, &build) {
        return Err(FieldFault::OverLimit);
    }
    let Build { needs, clashes } = build;
    Ok(Recipe::new(name, steps, scratch, needs, clashes, outputs))
}

/// Reads a recipe behind others.
#[tactic(auto, using(crate::proofs::FirstLaws::gives_recipe))]
fn read_recipe(
    alloc: Global,
    land: &Land,
    list: &RecipeList,
    paragraph: &Paragraph,
    given: &[u8],
    parts: RecipeParts,
) -> Result<Recipe, FieldFault>
    requires land { IsLand (land_view land.now) }
    requires list { AreRecipes (land_view land.now) list.now }
    requires parts { AreRecipeParts (land_view land.now) paragraph.now parts }
    ensures read { Gives refusal_of (λ r. r) result
        (recipe_at (land_view land.now) list.now.recipes.items paragraph.now given.now) }
    ensures new { IfOk result (IsNew (land_view land.now) list.now.recipes.items) }
{
    read_first_recipe(alloc, land, list, paragraph, given, parts)
}

/// Puts a recipe behind the others.
fn put(list: &mut RecipeList, recipe: Recipe) -> Result<(), FieldFault>
    requires room { list.old.entries + build_entries recipe ≤ MOST_ENTRIES }
    requires names { All (λ v. v.name < length list.old.taken.items) recipe.outputs }
    requires bits { All (λ v. v.bit < 64) recipe.outputs }
    ensures recipes { OnOk result
        ((list.new.recipes.items ≡ list.old.recipes.items ++ recipe ∷ [])
        × (AreNamed list.old.by_name list.old.recipes.items
        → AreNamed list.new.by_name list.new.recipes.items)) }
    ensures taken { list.new.taken.items ≡ taken_with list.old.taken.items recipe.outputs }
    ensures entries { list.new.entries ≡ list.old.entries + build_entries recipe }
    ensures memory { IfErr result (λ e. refusal_of e ≡ None) }
{
    list.entries += recipe.needs().len() + recipe.clashes().len();
    set_bits(&mut list.taken, recipe.outputs());
    let item = Item {
        owner: list.recipes.len(),
        entry: 0,
        alternative: 0,
    };
    list.by_name.add(recipe.name(), item)?;
    list.recipes.push(recipe)?;
    Ok(())
}

/// Goes on by a paragraph with the field Recipe, of which these parts were read.
///
/// # Errors
///
/// The first of 121 and 203 of its name, those of [`read_build`](crate::build::read_build), 201 and
/// 202 of `Steps`, 202 of `Scratch`, of `Outputs` 208, those of
/// [`read_list`](crate::list::read_list) and 207, and 210. [`FieldFault::Memory`] where memory is
/// refused.
#[tactic(auto, unfolding(crate::specs::FarmText::recipes_with))]
pub fn add_recipe(
    alloc: Global,
    land: &Land,
    list: &mut RecipeList,
    paragraph: &Paragraph,
    given: &[u8],
    parts: RecipeParts,
) -> Result<(), FieldFault>
    requires land { IsLand (land_view land.now) }
    requires list { AreRecipes (land_view land.now) list.old }
    requires parts { AreRecipeParts (land_view land.now) paragraph.now parts }
    ensures read { Gives refusal_of (λ _. list.new.recipes.items) result
        (recipes_with (land_view land.now) list.old.recipes.items paragraph.now given.now) }
    ensures list { OnOk result (AreRecipes (land_view land.now) list.new) }
{
    let recipe = read_recipe(alloc, land, list, paragraph, given, parts)?;
    put(list, recipe)
}
