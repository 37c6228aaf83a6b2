//! Which build of a timed run needs which.

use crate::bits::Bits;
use crate::stock::Stock;
use std::alloc::{AllocError, Global};
use timeline::TimedPlan;

/// The recipes that a timed run builds, and those that each needs: they gave what is in the chroot
/// where it is first built.
#[derive(Drop)]
pub(crate) struct Needs {
    /// In the order of their first builds.
    order: Vec<usize>,
    built: Bits,
    /// By recipe.
    rows: Vec<Bits>,
}

/// No recipes, for each recipe.
fn no_rows(alloc: Global, count: usize) -> Result<Vec<Bits>, AllocError> {
    let mut rows = Vec::new(alloc);
    for _ in 0..count {
        rows.push(Bits::none(alloc, count)?)?;
    }
    Ok(rows)
}

/// Puts the recipes that gave something into a set.
fn put_givers(row: &mut Bits, held: &[Option<u32>]) {
    for giver in held {
        if let Some(recipe) = giver {
            row.put(*recipe as usize);
        }
    }
}

impl Needs {
    /// Takes note of a build in a chroot that has these.
    fn build(&mut self, recipe: usize, held: &[Option<u32>]) -> Result<(), AllocError> {
        if self.built.has(recipe) {
            return Ok(());
        }
        self.order.push(recipe)?;
        self.built.put(recipe);
        if let Some(row) = self.rows.get_mut(recipe) {
            put_givers(row, held);
        }
        Ok(())
    }

    /// Which build needs which in a timed run.
    pub(crate) fn of(alloc: Global, run: &TimedPlan<'_>) -> Result<Needs, AllocError> {
        let count = run.universe.recipes() as usize;
        let mut needs = Needs {
            order: Vec::new(alloc),
            built: Bits::none(alloc, count)?,
            rows: no_rows(alloc, count)?,
        };
        let mut stock = Stock::new(alloc, run)?;
        for event in run.events {
            if let Some(recipe) = run.built(event) {
                needs.build(recipe as usize, stock.held(event.lane))?;
            }
            stock.follow(run, event);
        }
        Ok(needs)
    }

    /// The needs of each recipe, by its number.
    pub(crate) fn rows(&self) -> &[Bits] {
        &self.rows
    }
}

/// What those of a set come after.
fn all_behind(alloc: Global, behind: &[Bits], row: &Bits) -> Result<Bits, AllocError> {
    let mut far = Bits::none(alloc, behind.len())?;
    for recipe in 0..behind.len() {
        if row.has(recipe) {
            far.join(&behind[recipe]);
        }
    }
    Ok(far)
}

/// Puts those of two sets into the set of a recipe.
fn put_both(rows: &mut Vec<Bits>, recipe: usize, row: &Bits, far: &Bits) {
    if let Some(known) = rows.get_mut(recipe) {
        known.join(row);
        known.join(far);
    }
}

/// Puts those of a set into the set of a recipe that are not in another.
fn put_others(rows: &mut Vec<Bits>, recipe: usize, row: &Bits, far: &Bits) {
    if let Some(known) = rows.get_mut(recipe) {
        known.join(row);
        known.leave(far);
    }
}

/// The needs of each recipe without those that something else that it needs comes after. What a
/// recipe needs stands ahead of it in the order of the run.
pub(crate) fn without_detours(alloc: Global, needs: &Needs) -> Result<Vec<Bits>, AllocError> {
    let mut behind = no_rows(alloc, needs.rows.len())?;
    let mut left = no_rows(alloc, needs.rows.len())?;
    for recipe in needs.order.as_slice() {
        if let Some(row) = needs.rows.get(*recipe) {
            let far = all_behind(alloc, &behind, row)?;
            put_both(&mut behind, *recipe, row, &far);
            put_others(&mut left, *recipe, row, &far);
        }
    }
    Ok(left)
}
