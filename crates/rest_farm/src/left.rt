//! What is in archives: that of a run that has stopped, and the initial one of a farm.

ghost use Rattle.std.specs.Prelude.{◌≡◌, ◌<◌, ◌≤◌, ◌&&◌, ◌||◌, IfOk, OnOk, Some};
ghost use Rattle.farm_model.specs.Common.{names, some_below, variant, variants, word_has, IsKnown};
ghost use Rattle.leg_laws.specs.Named.{Item, is_equal_item, is_listed, item_of, was_there};
ghost use Rattle.rest_farm.specs.Odds.{is_initial_item};

use crate::item::Item;
use crate::items::Items;
use farm_core::Core;
use farm_universe::{Universe, Variant};
use std::alloc::{AllocError, Global};

/// Tells whether a word has a bit.
fn word_has(word: u64, bit: u32) -> bool
    requires { bit < 64 }
    ensures { result ≡ word_has word bit }
{
    (word >> bit) & 1 == 1
}

/// How many variants a name has: none where the universe does not have the name.
#[tactic(auto, using(farm_universe::proofs::PlaceLaws::no_variants))]
pub(crate) fn variant_count(universe: &Universe, name: u32) -> u32
    ensures number { result ≡ variants universe.now name }
    ensures few { result ≤ 64 }
{
    if name < universe.names() {
        universe.variants(name)
    } else {
        0
    }
}

/// Puts a variant behind a list, if a word has its bit.
fn push_variant(
    list: &mut Vec<Item>,
    alloc: Global,
    universe: &Universe,
    word: u64,
    variant: Variant,
) -> Result<(), AllocError>
    requires name { variant.name < names universe.now }
    requires known { IsKnown universe.now variant }
    requires few { variant.bit < 64 }
    ensures { OnOk result ((item : Item) → is_listed list.new.items item
        ≡ (is_listed list.old.items item
        || (word_has word variant.bit && is_equal_item (item_of universe.now variant) item))) }
{
    if !word_has(word, variant.bit) {
        return Ok(());
    }
    let item = Item::of(alloc, universe, variant)?;
    list.push(item)?;
    Ok(())
}

/// Puts the variants of a name behind a list of which a word has the bits.
fn push_name(
    list: &mut Vec<Item>,
    alloc: Global,
    universe: &Universe,
    word: u64,
    name: u32,
) -> Result<(), AllocError>
    requires { name < names universe.now }
    ensures { OnOk result ((item : Item) → is_listed list.new.items item
        ≡ (is_listed list.old.items item || some_below (variants universe.now name)
        (λ b. word_has word b && is_equal_item (item_of universe.now (variant name b)) item))) }
{
    for bit in 0..variant_count(universe, name) {
        push_variant(list, alloc, universe, word, Variant { name, bit })?;
    }
    Ok(())
}

/// What is in the archive of a run, by the numbers of names.
fn list_left(alloc: Global, universe: &Universe, run: &Core<'_>) -> Result<Vec<Item>, AllocError>
    requires { run.now.universe ≡ universe.now }
    ensures { IfOk result (λ list. (item : Item)
        → is_listed list.items item ≡ was_there universe.now run.now.state item) }
{
    let mut list = Vec::new(alloc);
    for name in 0..universe.names() {
        push_name(&mut list, alloc, universe, run.word(name), name)?;
    }
    Ok(list)
}

/// What is in the initial archive of a farm, by the numbers of names.
fn list_initial(alloc: Global, farm: &Universe) -> Result<Vec<Item>, AllocError>
    ensures { IfOk result (λ list. (item : Item)
        → is_listed list.items item ≡ is_initial_item farm.now item) }
{
    let mut list = Vec::new(alloc);
    for name in 0..farm.names() {
        push_name(&mut list, alloc, farm, farm.initial(name), name)?;
    }
    Ok(list)
}

/// What a run has left in the archive: its initial variants, and what was published.
pub fn left_items(alloc: Global, run: &Core<'_>) -> Result<Items, AllocError>
    ensures { IfOk result (λ items. (item : Item)
        → is_listed items item ≡ was_there run.now.universe run.now.state item) }
{
    let list = list_left(alloc, run.universe(), run)?;
    Items::of(alloc, list)
}

/// What is in the archive of a farm from the start.
pub fn initial_items(alloc: Global, farm: &Universe) -> Result<Items, AllocError>
    ensures { IfOk result (λ items. (item : Item)
        → is_listed items item ≡ is_initial_item farm.now item) }
{
    let list = list_initial(alloc, farm)?;
    Items::of(alloc, list)
}

/// The package and the version of a variant; `None` where the universe does not have the variant.
#[tactic(auto, using(farm_universe::proofs::PlaceLaws::named))]
pub fn known_item(
    alloc: Global,
    universe: &Universe,
    variant: Variant,
) -> Result<Option<Item>, AllocError>
    ensures { IfOk result (λ item. IsKnown universe.now variant
        → item ≡ Some (item_of universe.now variant)) }
{
    if variant.bit >= variant_count(universe, variant.name) {
        return Ok(None);
    }
    Ok(Some(Item::of(alloc, universe, variant)?))
}
