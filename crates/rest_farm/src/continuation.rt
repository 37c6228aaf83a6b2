//! Whether a farm goes on where a run has stopped.

ghost use Rattle.std.specs.Prelude.{◌≡◌, ◌<◌, ◌≤◌, true, false, length, IfOk};
ghost use Rattle.std.specs.List.{list_any};
ghost use Rattle.farm_model.specs.Common.{names, outputs, some_below, some_variant, variant, variants, IsKnown};
ghost use Rattle.leg_laws.specs.Continuation.{IsContinuation};
ghost use Rattle.leg_laws.specs.Named.{item_of};
ghost use Rattle.rest_farm.specs.Odds as odds;

use crate::item::Item;
use crate::items::Items;
use crate::left::{initial_items, left_items, variant_count};
use farm_core::Core;
use farm_universe::{Universe, Variant};
use std::alloc::{AllocError, Global};

/// What a farm goes on from: the items that a run has left in the archive, that came into it by
/// hand, and that are withdrawn from it.
#[derive(Clone, Copy)]
pub struct Ahead<'a> {
    pub left: &'a Items,
    pub brought: &'a Items,
    pub gone: &'a Items,
}

/// Tells whether a variant of a farm stays in the archive.
fn stays(of: Ahead<'_>, farm: &Universe, variant: Variant) -> bool
    requires name { variant.name < names farm.now }
    requires known { IsKnown farm.now variant }
    ensures { result ≡ odds.stays_in of.entry.left.now of.entry.brought.now of.entry.gone.now
        (item_of farm.now variant) }
{
    (of.left.has_variant(farm, variant) || of.brought.has_variant(farm, variant))
        && !of.gone.has_variant(farm, variant)
}

/// Tells whether a variant is in the farm's archive and does not stay, or stays and is not there.
fn is_wrong(of: Ahead<'_>, farm: &Universe, variant: Variant) -> bool
    requires name { variant.name < names farm.now }
    requires known { IsKnown farm.now variant }
    requires few { variant.bit < 64 }
    ensures { result ≡ odds.is_wrong of.entry.left.now of.entry.brought.now of.entry.gone.now
        farm.now variant }
{
    if farm.is_initial(variant) {
        !stays(of, farm, variant)
    } else {
        stays(of, farm, variant)
    }
}

/// The same of some variant of a name.
fn name_is_wrong(of: Ahead<'_>, farm: &Universe, name: u32) -> bool
    requires { name < names farm.now }
    ensures { result ≡ some_below (variants farm.now name)
        (λ b. odds.is_wrong of.entry.left.now of.entry.brought.now of.entry.gone.now farm.now
        (variant name b)) }
{
    for bit in 0..variant_count(farm, name) {
        if is_wrong(of, farm, Variant { name, bit }) {
            return true;
        }
    }
    false
}

/// The same of some variant of the farm.
fn some_is_wrong(of: Ahead<'_>, farm: &Universe) -> bool
    ensures { result ≡ some_variant farm.now
        (odds.is_wrong of.entry.left.now of.entry.brought.now of.entry.gone.now farm.now) }
{
    for name in 0..farm.names() {
        if name_is_wrong(of, farm, name) {
            return true;
        }
    }
    false
}

/// Tells whether an item stays, and is not in the farm's archive.
fn is_lost(gone: &Items, there: &Items, item: &Item) -> bool
    ensures { result ≡ odds.is_lost gone.now there.now item.now }
{
    !gone.has_item(item) && !there.has_item(item)
}

/// The same of some item of a list.
fn some_is_lost(gone: &Items, there: &Items, items: &[Item]) -> bool
    ensures { result ≡ list_any (odds.is_lost gone.now there.now) items.now }
{
    items.iter().any(|item| is_lost(gone, there, item))
}

/// Tells whether a variant of a farm is withdrawn.
#[tactic(auto, using(farm_universe::proofs::PlaceLaws::named))]
fn is_gone(gone: &Items, farm: &Universe, variant: Variant) -> bool
    ensures { result ≡ odds.is_gone gone.now farm.now variant }
{
    if variant.bit >= variant_count(farm, variant.name) {
        return false;
    }
    gone.has_variant(farm, variant)
}

/// Tells whether a recipe gives what is withdrawn.
fn gives_gone(gone: &Items, farm: &Universe, recipe: u32) -> bool
    ensures { result ≡ list_any (odds.is_gone gone.now farm.now) (outputs farm.now recipe) }
{
    farm.outputs(recipe)
        .iter()
        .any(|variant| is_gone(gone, farm, *variant))
}

/// Tells whether some recipe does.
fn some_comes_back(gone: &Items, farm: &Universe) -> bool
    ensures { result ≡ odds.some_comes_back gone.now farm.now }
{
    for recipe in 0..farm.recipes() {
        if gives_gone(gone, farm, recipe) {
            return true;
        }
    }
    false
}

/// Tells whether something is at odds between what a farm goes on from and the farm.
fn is_at_odds(of: Ahead<'_>, there: &Items, farm: &Universe) -> bool
    ensures { result ≡ odds.is_at_odds of.entry.left.now of.entry.brought.now of.entry.gone.now
        there.now farm.now }
{
    some_is_wrong(of, farm)
        || some_is_lost(of.gone, there, of.left.list())
        || some_is_lost(of.gone, there, of.brought.list())
        || some_comes_back(of.gone, farm)
}

/// Tells whether a farm goes on where a run has stopped, given what came into the archive by hand and
/// what is withdrawn from it: its archive begins with exactly what stays, it knows all of that, and
/// no recipe gives what is withdrawn. Packages are compared by name and version (Debian Policy
/// 5.6.12), since each universe has numbers of its own.
pub fn goes_on<'a>(
    alloc: Global,
    run: &Core<'_>,
    brought: &'a Items,
    gone: &'a Items,
    farm: &Universe,
) -> Result<bool, AllocError>
    ensures right { IfOk result (λ yes. yes ≡ true → IsContinuation run.now.universe
        run.now.state brought.now gone.now farm.now) }
    ensures wrong { IfOk result (λ yes. yes ≡ false → ¬ (IsContinuation run.now.universe
        run.now.state brought.now gone.now farm.now)) }
{
    let _names = farm.names();
    let left = left_items(alloc, run)?;
    let there = initial_items(alloc, farm)?;
    let of = Ahead {
        left: &left,
        brought,
        gone,
    };
    Ok(!is_at_odds(of, &there, farm))
}
