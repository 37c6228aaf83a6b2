//! What recipes cost, and the longest chains behind them.

use crate::Lane;
use crate::order::Order;
use draft_search::{FarmNumbers, at, put};
use std::alloc::{AllocError, Global};

/// What it costs to build a recipe and to publish what it gives.
pub(crate) fn build_cost(farm: &FarmNumbers, recipe: usize) -> u64 {
    let outputs = farm.outputs(recipe).len() as u64;
    farm.recipe(recipe).steps.saturating_add(outputs)
}

/// About what it costs to unpack and configure a variant.
fn install_cost(farm: &FarmNumbers, variant: usize) -> u64 {
    (farm.facts(variant).size / 1024).saturating_add(2)
}

/// About what it costs in an empty chroot to install what a recipe needs, to build it and to
/// publish it.
fn whole_cost(farm: &FarmNumbers, order: &Order, recipe: usize) -> u64 {
    let mut cost = build_cost(farm, recipe);
    for variant in order.install(recipe) {
        cost = cost.saturating_add(install_cost(farm, *variant));
    }
    cost
}

/// The same in the chroot of a lane, with what is removed there.
pub(crate) fn lane_cost(farm: &FarmNumbers, order: &Order, recipe: usize, lane: &Lane) -> u64 {
    let mut cost = build_cost(farm, recipe);
    let mut kept = 0u64;
    let held = lane.held();
    for variant in order.install(recipe) {
        let there = at(held, farm.name(*variant), usize::MAX);
        if there != *variant {
            cost = cost.saturating_add(install_cost(farm, *variant));
        }
        if there != usize::MAX {
            kept = kept.saturating_add(1);
        }
    }
    let removed = (lane.count() as u64).saturating_sub(kept);
    cost.saturating_add(removed)
}

/// By recipe: what it costs from its begin to the end of the longest chain of builds behind it.
pub(crate) fn levels(
    alloc: Global,
    farm: &FarmNumbers,
    order: &Order,
) -> Result<Vec<u64>, AllocError> {
    let mut behind = vec![in alloc; 0u64; farm.recipes()]?;
    let mut levels = vec![in alloc; 0u64; farm.recipes()]?;
    let through = order.through();
    for passed in 0..through.len() {
        let recipe = at(through, through.len() - 1 - passed, usize::MAX);
        let level = whole_cost(farm, order, recipe).saturating_add(at(&behind, recipe, 0));
        put(&mut levels, recipe, level);
        for earlier in order.after(recipe) {
            let longest = at(&behind, *earlier, 0).max(level);
            put(&mut behind, *earlier, longest);
        }
    }
    Ok(levels)
}
