//! The recipes of the farm that is wanted.

use crate::control::{ControlText, Keyed};
use crate::lists::{has_words, listed};
use crate::past::{Past, Progress};
use rest_farm::{Item, Name, WantedRecipe};
use std::alloc::{AllocError, Global};

/// The field that names a recipe.
pub const RECIPE: &[u8] = b"Recipe";

/// A run by its farm text: the recipes of that, and what has become of each.
#[derive(Clone, Copy)]
pub struct Earlier<'a> {
    pub farm: &'a ControlText<'a>,
    pub recipes: &'a Keyed,
    pub past: &'a Past,
}

/// A paragraph of a text.
#[derive(Clone, Copy)]
struct Block<'a> {
    text: &'a ControlText<'a>,
    number: usize,
}

impl<'a> Block<'a> {
    fn value(&self, field: &[u8]) -> Option<&'a [u8]> {
        self.text.value(self.number, field)
    }

    fn mode(&self) -> &'a [u8] {
        self.value(b"Mode").unwrap_or(b"full")
    }

    fn profiles(&self) -> &'a [u8] {
        self.value(b"Profiles").unwrap_or(b"")
    }

    fn is_bare(&self) -> bool {
        self.mode() == b"built".as_slice()
    }
}

/// Tells whether two lists have the same items in their order.
fn are_same_items(items: &[Item], others: &[Item]) -> bool {
    if items.len() != others.len() {
        return false;
    }
    for place in 0..items.len() {
        if !items[place].is_same(&others[place]) {
            return false;
        }
    }
    true
}

/// Tells whether two recipes are of one source: the same by name and version, or the same text where
/// that is no list.
fn is_same_source(alloc: Global, old: Block<'_>, new: Block<'_>) -> Result<bool, AllocError> {
    let (before, now) = (old.value(b"Source"), new.value(b"Source"));
    let items = listed(alloc, before)?;
    let others = listed(alloc, now)?;
    if items.is_empty() && others.is_empty() {
        return Ok(before.unwrap_or(b"") == now.unwrap_or(b""));
    }
    Ok(are_same_items(&items, &others))
}

/// Tells whether two recipes have the same mode, which counts for nothing where one is `built`.
fn is_same_mode(old: Block<'_>, new: Block<'_>) -> bool {
    old.is_bare() || new.is_bare() || old.mode() == new.mode()
}

/// Tells whether two texts have the same words, in any order.
fn are_same_words(text: &[u8], other: &[u8]) -> bool {
    if !has_words(text, other) {
        return false;
    }
    has_words(other, text)
}

fn has_same_profiles(old: Block<'_>, new: Block<'_>) -> bool {
    let before = old.profiles();
    let now = new.profiles();
    are_same_words(before, now)
}

/// Tells whether two recipes are the same build: of one source, mode and profiles.
fn is_same_build(alloc: Global, old: Block<'_>, new: Block<'_>) -> Result<bool, AllocError> {
    if !is_same_mode(old, new) || !has_same_profiles(old, new) {
        return Ok(false);
    }
    is_same_source(alloc, old, new)
}

/// Tells whether the build of a recipe of the run has ended, and is not published.
fn has_ended(progress: Progress, old: Block<'_>) -> bool {
    let is_left = progress.is_built && !progress.is_published;
    is_left || progress.open_publish.is_some() || old.is_bare()
}

fn built_before(alloc: Global, old: Block<'_>) -> Result<Vec<Item>, AllocError> {
    if old.is_bare() {
        listed(alloc, old.value(b"Outputs"))
    } else {
        Ok(Vec::new(alloc))
    }
}

/// A recipe that the farm of the run has too, at a place.
fn known_recipe(
    alloc: Global,
    earlier: Earlier<'_>,
    place: usize,
    new: Block<'_>,
    name: &[u8],
) -> Result<WantedRecipe, AllocError> {
    let number = earlier.recipes.numbers.get(place).copied().unwrap_or(0);
    let old = Block {
        text: earlier.farm,
        number,
    };
    let progress = earlier.past.progress(place);
    Ok(WantedRecipe {
        name: Name::of(alloc, name)?,
        outputs: listed(alloc, new.value(b"Outputs"))?,
        has_ended: has_ended(progress, old) && is_same_build(alloc, old, new)?,
        is_bare: new.is_bare(),
        is_open: progress.open_publish.is_some(),
        built_before: built_before(alloc, old)?,
    })
}

fn new_recipe(alloc: Global, new: Block<'_>, name: &[u8]) -> Result<WantedRecipe, AllocError> {
    Ok(WantedRecipe {
        name: Name::of(alloc, name)?,
        outputs: listed(alloc, new.value(b"Outputs"))?,
        has_ended: false,
        is_bare: new.is_bare(),
        is_open: false,
        built_before: Vec::new(alloc),
    })
}

/// The recipe of a paragraph of the farm that is wanted.
fn wanted_recipe(
    alloc: Global,
    earlier: Earlier<'_>,
    new: Block<'_>,
) -> Result<WantedRecipe, AllocError> {
    let name = new.value(RECIPE).unwrap_or(b"");
    match earlier.recipes.find(earlier.farm, RECIPE, name) {
        Some(place) => known_recipe(alloc, earlier, place, new, name),
        None => new_recipe(alloc, new, name),
    }
}

/// The recipes of the farm that is wanted, in their order.
pub fn wanted_recipes(
    alloc: Global,
    earlier: Earlier<'_>,
    farm: &ControlText<'_>,
    recipes: &Keyed,
) -> Result<Vec<WantedRecipe>, AllocError> {
    let mut list = Vec::new(alloc);
    for number in &recipes.numbers {
        let new = Block {
            text: farm,
            number: *number,
        };
        list.push(wanted_recipe(alloc, earlier, new)?)?;
    }
    Ok(list)
}
