//! Why a leg does not go on where another has stopped.

use crate::facts::LegFacts;
use crate::seam::push_item;
use farm_universe::Universe;
use leg_runs::{Leg, names_run};
use rest_farm::{Item, Items, known_item};
use std::alloc::{AllocError, Global};

/// Why a leg does not go on where another has stopped.
#[derive(Drop)]
pub enum Why {
    /// Its field `After` does not name that run, or not the lines of its journal.
    After,
    /// This was left in the archive, and is not in that of the farm.
    Lost(Item),
    /// This was withdrawn, and the farm has it or gives it, or does not say so any more.
    Withdrawn(Item),
}

/// The first item that was left in an archive, and is neither in another one nor withdrawn.
fn first_lost(before: &LegFacts, leg: &LegFacts, gone: &Items) -> Result<Option<Item>, AllocError> {
    for item in before.at_end.list() {
        if !leg.at_start.has_item(item) && !gone.has_item(item) {
            return Ok(Some(item.clone()?));
        }
    }
    Ok(None)
}

/// Tells whether a recipe of a farm gives an item.
fn is_given(alloc: Global, farm: &Universe, item: &Item) -> Result<bool, AllocError> {
    for recipe in 0..farm.recipes() {
        for variant in farm.outputs(recipe) {
            if let Some(output) = known_item(alloc, farm, *variant)? {
                if output.is_same(item) {
                    return Ok(true);
                }
            }
        }
    }
    Ok(false)
}

/// The first of some items that were withdrawn, and that a farm has or gives, or does not withdraw
/// any more.
fn first_back(
    alloc: Global,
    leg: &Leg<'_>,
    at_start: &Items,
    items: &Items,
) -> Result<Option<Item>, AllocError> {
    let farm = leg.follower.core.universe();
    for item in items.list() {
        if !leg.said.gone.has_item(item)
            || at_start.has_item(item)
            || is_given(alloc, farm, item)?
        {
            return Ok(Some(item.clone()?));
        }
    }
    Ok(None)
}

/// Why a leg does not go on where another has stopped, given what their archives have.
pub fn why_not(
    alloc: Global,
    before: &Leg<'_>,
    leg: &Leg<'_>,
    ends: (&LegFacts, &LegFacts),
) -> Result<Why, AllocError> {
    if !names_run(before, leg) {
        return Ok(Why::After);
    }
    if let Some(item) = first_lost(ends.0, ends.1, &leg.said.gone)? {
        return Ok(Why::Lost(item));
    }
    if let Some(item) = first_back(alloc, leg, &ends.1.at_start, &before.said.gone)? {
        return Ok(Why::Withdrawn(item));
    }
    match first_back(alloc, leg, &ends.1.at_start, &leg.said.gone)? {
        Some(item) => Ok(Why::Withdrawn(item)),
        None => Ok(Why::After),
    }
}

/// Puts behind a text why a leg does not go on.
pub fn push_why(text: &mut Vec<u8>, why: &Why) -> Result<(), AllocError> {
    match why {
        Why::After => text.extend_from_slice(b"after"),
        Why::Lost(item) => push_item(text, item),
        Why::Withdrawn(item) => {
            push_item(text, item)?;
            text.extend_from_slice(b" was withdrawn")
        }
    }
}
