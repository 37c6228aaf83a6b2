//! What the lanes have published so far.

use draft_search::{FarmNumbers, at, put};
use std::alloc::{AllocError, Global};

/// What is published so far, by recipe.
#[derive(Drop)]
pub struct Published {
    /// What it gives is published.
    is_built: Vec<bool>,
    /// How many outputs were published before its own.
    turn: Vec<usize>,
    /// When its last output was published, by the costs of its lane.
    time: Vec<u64>,
    /// By recipe: of how many outputs of each recipe its lane knew.
    known: Vec<Vec<usize>>,
    /// By recipe: the one behind whose publication its own lane went on.
    behind: Vec<Option<usize>>,
    /// The recipes that some lane builds in the end.
    is_wanted: Vec<bool>,
    outputs: usize,
}

impl Published {
    /// Nothing is published. Those of `wanted` will be.
    pub fn new(
        alloc: Global,
        farm: &FarmNumbers,
        wanted: &[usize],
    ) -> Result<Published, AllocError> {
        let count = farm.recipes();
        let mut known = Vec::new(alloc);
        for _ in 0..count {
            known.push(Vec::new(alloc))?;
        }
        let mut is_wanted = vec![in alloc; false; count]?;
        for recipe in wanted {
            put(&mut is_wanted, *recipe, true);
        }
        Ok(Published {
            is_built: vec![in alloc; false; count]?,
            turn: vec![in alloc; 0; count]?,
            time: vec![in alloc; 0; count]?,
            known,
            behind: vec![in alloc; None; count]?,
            is_wanted,
            outputs: 0,
        })
    }

    /// By recipe: whether it is built.
    pub fn built(&self) -> &[bool] {
        &self.is_built
    }

    /// By recipe: how many outputs were published before its own.
    pub fn turns(&self) -> &[usize] {
        &self.turn
    }

    /// When the last output of a recipe was published.
    pub fn time(&self, recipe: usize) -> u64 {
        at(&self.time, recipe, 0)
    }

    /// The recipe behind whose publication the lane of another went on to it.
    pub fn behind(&self, recipe: usize) -> Option<usize> {
        at(&self.behind, recipe, None)
    }

    /// Writes down behind which recipe another one's lane went on.
    pub(crate) fn note_behind(&mut self, recipe: usize, earlier: Option<usize>) {
        put(&mut self.behind, recipe, earlier);
    }

    /// How many outputs of each recipe are known behind the publication of a recipe's first ones.
    pub fn known(&self, recipe: usize) -> &[usize] {
        match self.known.get(recipe) {
            Some(known) => known,
            None => &[],
        }
    }

    /// Tells whether a variant is in the archive at some time: at the beginning, or given by a
    /// build.
    pub fn may_come(&self, farm: &FarmNumbers, variant: usize) -> bool {
        let facts = farm.facts(variant);
        match facts.giver {
            Some((recipe, _)) => at(&self.is_wanted, recipe, false),
            None => facts.is_initial,
        }
    }

    /// Writes down that a recipe is published, by a lane that knew of so many outputs of each
    /// recipe.
    pub fn add(
        &mut self,
        farm: &FarmNumbers,
        recipe: usize,
        known: &Vec<usize>,
        time: u64,
    ) -> Result<(), AllocError> {
        let copy = known.clone()?;
        match self.known.get_mut(recipe) {
            Some(place) => *place = copy,
            None => {}
        }
        put(&mut self.is_built, recipe, true);
        put(&mut self.turn, recipe, self.outputs);
        put(&mut self.time, recipe, time);
        self.outputs = self.outputs.saturating_add(farm.outputs(recipe).len());
        Ok(())
    }
}
