//! What is wanted, in the numbers of those that look for a plan.

use crate::Wanted;
use draft_lanes::{LaneWish, Wish};
use std::alloc::{AllocError, Global};

/// Recipes by their plain numbers.
fn numbers_of(alloc: Global, recipes: &[u32]) -> Result<Vec<usize>, AllocError> {
    let mut numbers = Vec::new(alloc);
    for recipe in recipes {
        numbers.push(*recipe as usize)?;
    }
    Ok(numbers)
}

/// The lanes that are wanted, and the recipes that any of them may build.
pub(crate) fn wish_of(alloc: Global, wanted: &Wanted) -> Result<Wish, AllocError> {
    let mut lanes = Vec::new(alloc);
    for lane in &wanted.lanes {
        lanes.push(LaneWish {
            base: lane.base as usize,
            budget: lane.budget,
            builds: numbers_of(alloc, &lane.builds)?,
        })?;
    }
    Ok(Wish {
        lanes,
        free: numbers_of(alloc, &wanted.free)?,
    })
}

/// Recipes by the numbers of the universe.
pub(crate) fn recipes_of(alloc: Global, numbers: &[usize]) -> Result<Vec<u32>, AllocError> {
    let mut recipes = Vec::new(alloc);
    for number in numbers {
        recipes.push(u32::try_from(*number).unwrap_or(u32::MAX))?;
    }
    Ok(recipes)
}
