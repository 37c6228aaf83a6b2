//! The recipes and base chroots of a farm.

use crate::entries::EntryLists;
use crate::found::{Room, number_of};
use crate::looks::recipe_of;
use crate::satisfying::Ground;
use draft_search::{Builds, Facts, Lists, RecipeFacts};
use farm_universe::Variant;
use std::alloc::{AllocError, Global};

/// Puts variants into a list, which ends with them.
fn push_variants(
    lists: &mut Lists,
    first: &[usize],
    variants: &[Variant],
) -> Result<(), AllocError> {
    for variant in variants {
        lists.push(number_of(first, *variant))?;
    }
    lists.close()
}

/// Notes what a recipe gives.
fn note_outputs(facts: &mut [Facts], first: &[usize], recipe: usize, outputs: &[Variant]) {
    for (place, output) in outputs.iter().enumerate() {
        match facts.get_mut(number_of(first, *output)) {
            Some(facts) => facts.giver = Some((recipe, place)),
            None => {}
        }
    }
}

/// Notes of all variants which recipe gives them.
pub(crate) fn note_givers(ground: Ground<'_>, first: &[usize], facts: &mut [Facts]) {
    for number in 0..ground.universe.recipes() {
        let outputs = ground.universe.outputs(number);
        note_outputs(facts, first, number as usize, outputs);
    }
}

/// The variants that must be absent where a recipe is built.
fn push_clashes<'a>(
    clashes: &mut Lists,
    room: &mut Room,
    ground: Ground<'a>,
    lists: &mut EntryLists<'a>,
    number: u32,
) -> Result<(), AllocError> {
    if let Some(recipe) = recipe_of(ground.universe, number) {
        for list in &lists.lists_of(recipe.clashes())? {
            for variant in lists.lists().of(*list) {
                room.take()?;
                clashes.push(*variant)?;
            }
        }
    }
    clashes.close()
}

/// The base chroots: what they can hold, and what they do.
fn bases_of(
    alloc: Global,
    ground: Ground<'_>,
    first: &[usize],
) -> Result<(Vec<u64>, Lists), AllocError> {
    let mut capacities = Vec::new(alloc);
    let mut bases = Lists::new(alloc);
    for number in 0..ground.universe.bases() {
        let base = ground.universe.base(number);
        capacities.push(base.capacity())?;
        push_variants(&mut bases, first, base.packages())?;
    }
    Ok((capacities, bases))
}

/// The recipes and base chroots, by the numbers of the first variants.
///
/// # Errors
///
/// [`AllocError`] where memory is refused, or there are too many items.
pub(crate) fn builds_of<'a>(
    alloc: Global,
    ground: Ground<'a>,
    lists: &mut EntryLists<'a>,
    first: &[usize],
) -> Result<Builds, AllocError> {
    let mut recipes = Vec::new(alloc);
    let mut clashes = Lists::new(alloc);
    let mut outputs = Lists::new(alloc);
    let mut room = Room::new();
    for number in 0..ground.universe.recipes() {
        let recipe = ground.universe.recipe(number);
        recipes.push(RecipeFacts {
            steps: recipe.steps(),
            scratch: recipe.scratch(),
        })?;
        push_clashes(&mut clashes, &mut room, ground, lists, number)?;
        push_variants(&mut outputs, first, recipe.outputs())?;
    }
    let (capacities, bases) = bases_of(alloc, ground, first)?;
    Ok(Builds {
        recipes,
        clashes,
        outputs,
        capacities,
        bases,
    })
}
