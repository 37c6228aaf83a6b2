//! What becomes of a recipe once a run has stopped.

ghost use Rattle.std.specs.Prelude.{◌≡◌, IfOk, map};
ghost use Rattle.std.specs.List.{list_all};
ghost use Rattle.leg_laws.specs.Named.{is_listed};
ghost use Rattle.rest_farm.specs.Fates as fates;

use crate::item::Item;
use crate::items::Items;
use crate::names::{Name, Names};
use std::alloc::{AllocError, Global};

/// What becomes of a recipe of the farm that is wanted.
#[derive(Clone, Copy, Debug, PartialEq, Eq)]
pub enum Fate {
    /// It is given up, and left out.
    GivenUp,
    /// Its name was published: it is done, and left out.
    Published,
    /// All that it gives is in the archive: it is done, and left out.
    There,
    /// Refusal 721: some of what it gives is in the archive, or all, and it is wanted anew.
    Partly,
    /// Refusal 721: some of what it gives is withdrawn.
    Withdrawn,
    /// It is left, and built by now.
    Built,
    /// Refusal 722: nothing says how it is built, and it is not built.
    Unbuilt,
    /// It is left as it is.
    Left,
}

/// What decides what becomes of a recipe, beside what it gives.
#[derive(Clone, Copy, Debug, PartialEq, Eq)]
pub struct RecipeFacts {
    /// A word gives it up.
    pub is_given_up: bool,
    /// A word wants it built anew.
    pub is_wanted_anew: bool,
    /// Its name was published, by this run or an earlier one.
    pub is_published: bool,
    /// It counts as built.
    pub is_built: bool,
    /// The farm text has `Mode: built`, and does not say how it is built.
    pub is_bare: bool,
}

/// A recipe of the farm that is wanted.
#[derive(Drop)]
pub struct WantedRecipe {
    pub name: Name,
    /// What it gives.
    pub outputs: Vec<Item>,
    /// Its build has ended, by the journal or by the farm of the run, and is the one that is wanted.
    pub has_ended: bool,
    /// The farm text has `Mode: built`, and does not say how it is built.
    pub is_bare: bool,
    /// Its publish is open.
    pub is_open: bool,
    /// What it gives by the farm of the run, where that has it with `Mode: built`.
    pub built_before: Vec<Item>,
}

/// What words and runs say of recipes, by name: words give them up, want them anew, or say that they
/// are built; this run or an earlier one has published them.
#[derive(Clone, Copy)]
pub struct RecipeNames<'a> {
    pub given_up: &'a Names,
    pub wanted_anew: &'a Names,
    pub said_built: &'a Names,
    pub published: &'a Names,
}

fn are_all_in(list: &Items, items: &[Item]) -> bool
    ensures { result ≡ list_all (λ i. is_listed list.now i) items.now }
{
    items.iter().all(|item| list.has_item(item))
}

/// Tells whether all of some items are in a list, and there are some.
fn has_all(list: &Items, items: &[Item]) -> bool
    ensures { result ≡ fates.has_all list.now items.now }
{
    !items.is_empty() && are_all_in(list, items)
}

fn has_some(list: &Items, items: &[Item]) -> bool
    ensures { result ≡ fates.has_some list.now items.now }
{
    items.iter().any(|item| list.has_item(item))
}

/// What becomes of a recipe of which the archive has nothing, and nothing is withdrawn.
fn left_fate(facts: RecipeFacts) -> Fate
    ensures { result ≡ fates.left_fate facts }
{
    if facts.is_built && !facts.is_wanted_anew {
        return Fate::Built;
    }
    if facts.is_bare {
        Fate::Unbuilt
    } else {
        Fate::Left
    }
}

/// What becomes of a recipe that is neither given up nor published.
fn open_fate(facts: RecipeFacts, outputs: &[Item], archive: &Items, gone: &Items) -> Fate
    ensures { result ≡ fates.open_fate facts outputs.now archive.now gone.now }
{
    if has_all(archive, outputs) && !facts.is_wanted_anew {
        return Fate::There;
    }
    if has_some(archive, outputs) {
        return Fate::Partly;
    }
    if has_some(gone, outputs) {
        return Fate::Withdrawn;
    }
    left_fate(facts)
}

/// What becomes of a recipe that gives these items, by the archive and by what is withdrawn from it.
pub fn fate_of(facts: RecipeFacts, outputs: &[Item], archive: &Items, gone: &Items) -> Fate
    ensures { result ≡ fates.fate_of facts outputs.now archive.now gone.now }
{
    if facts.is_given_up {
        return Fate::GivenUp;
    }
    if facts.is_published && !facts.is_wanted_anew {
        return Fate::Published;
    }
    open_fate(facts, outputs, archive, gone)
}

/// What decides on a recipe.
fn facts_of(names: RecipeNames<'_>, recipe: &WantedRecipe) -> RecipeFacts
    ensures { result ≡ fates.facts_of names.entry recipe.now }
{
    let name = recipe.name.bytes();
    RecipeFacts {
        is_given_up: names.given_up.has(name),
        is_wanted_anew: names.wanted_anew.has(name),
        is_published: names.published.has(name),
        is_built: names.said_built.has(name) || recipe.has_ended,
        is_bare: recipe.is_bare,
    }
}

/// What becomes of a recipe, by what names say of it, the archive, and what is withdrawn from that.
pub fn fate_in(names: RecipeNames<'_>, archive: &Items, gone: &Items, recipe: &WantedRecipe) -> Fate
    ensures { result ≡ fates.fate_in names.entry archive.now gone.now recipe.now }
{
    fate_of(facts_of(names, recipe), &recipe.outputs, archive, gone)
}

/// What becomes of each recipe, in their order.
pub fn all_fates(
    alloc: Global,
    names: RecipeNames<'_>,
    archive: &Items,
    gone: &Items,
    recipes: &[WantedRecipe],
) -> Result<Vec<Fate>, AllocError>
    ensures { IfOk result (λ list. list.items
        ≡ map (fates.fate_in names.entry archive.now gone.now) recipes.now) }
{
    let mut list = Vec::new(alloc);
    for recipe in recipes {
        list.push(fate_in(names, archive, gone, recipe))?;
    }
    Ok(list)
}

impl Fate {
    /// Tells whether the recipe is left, and built by now.
    pub fn is_built(self) -> bool
        ensures { result ≡ fates.is_built self }
    {
        matches!(self, Fate::Built)
    }

    /// Tells whether the recipe is left.
    pub fn is_left(self) -> bool
        ensures { result ≡ fates.is_left self }
    {
        matches!(self, Fate::Built | Fate::Left)
    }
}
