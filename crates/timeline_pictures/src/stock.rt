//! The packages of a timed run that builds gave: those in the archive, and those in the chroots.

use deb_relation::Op;
use deb_version::Version;
use farm_archive::newest;
use farm_model::Variant;
use farm_universe::Universe;
use plan_reader::Instruction;
use std::alloc::{AllocError, Global};
use timed_run::Event;
use timeline::TimedPlan;

/// What an archive and its lanes have at a moment of a timed run.
#[derive(Drop)]
pub(crate) struct Stock {
    /// By name the variants in the archive, a bit each.
    words: Vec<u64>,
    /// By name and variant the recipe that gave it, if one has.
    givers: Vec<Vec<Option<u32>>>,
    /// By lane and name the recipe that gave what the lane has unpacked of it, if one has.
    held: Vec<Vec<Option<u32>>>,
}

/// Puts a recipe, or none, where there is a place for it.
fn put(places: &mut Vec<Option<u32>>, number: u32, recipe: Option<u32>) {
    if let Some(place) = places.get_mut(number as usize) {
        *place = recipe;
    }
}

impl Stock {
    /// What there is at the beginning.
    pub(crate) fn new(alloc: Global, run: &TimedPlan<'_>) -> Result<Stock, AllocError> {
        let universe = run.universe;
        let count = universe.names();
        let mut words = Vec::new(alloc);
        let mut givers = Vec::new(alloc);
        for name in 0..count {
            words.push(universe.initial(name))?;
            givers.push(vec![in alloc; None; universe.variants(name) as usize]?)?;
        }
        let mut held = Vec::new(alloc);
        for _ in 0..run.plan.lanes() {
            held.push(vec![in alloc; None; count as usize]?)?;
        }
        Ok(Stock {
            words,
            givers,
            held,
        })
    }

    /// Takes note of an output.
    fn publish(&mut self, recipe: u32, variant: Variant) {
        if let Some(word) = self.words.get_mut(variant.name as usize) {
            if variant.bit < 64 {
                *word |= 1 << variant.bit;
            }
        }
        if let Some(givers) = self.givers.get_mut(variant.name as usize) {
            put(givers, variant.bit, Some(recipe));
        }
    }

    /// The recipe that gave what an unpack takes, if one has.
    fn giver(
        &self,
        universe: &Universe,
        name: u32,
        relation: &Option<(Op, Version)>,
    ) -> Option<u32> {
        if name >= universe.names() {
            return None;
        }
        let word = self.words.get(name as usize)?;
        let bit = newest(universe, *word, name, relation)?;
        *self.givers.get(name as usize)?.get(bit as usize)?
    }

    /// Takes note of what a lane has of a name.
    fn hold(&mut self, lane: usize, name: u32, giver: Option<u32>) {
        if let Some(held) = self.held.get_mut(lane) {
            put(held, name, giver);
        }
    }

    /// Takes note of an event.
    pub(crate) fn follow(&mut self, run: &TimedPlan<'_>, event: &Event) {
        match run.instruction(event) {
            Some(Instruction::Unpack { name, relation }) => {
                let giver = self.giver(run.universe, *name, relation);
                self.hold(event.lane, *name, giver);
            }
            Some(Instruction::Remove(members)) => {
                for name in members.as_slice() {
                    self.hold(event.lane, *name, None);
                }
            }
            Some(Instruction::Publish(recipe)) => {
                if let Some(variant) = event.output {
                    self.publish(*recipe, variant);
                }
            }
            _ => {}
        }
    }

    /// The recipes that gave what a lane has, by name.
    pub(crate) fn held(&self, lane: usize) -> &[Option<u32>] {
        match self.held.get(lane) {
            Some(held) => held.as_slice(),
            None => &[],
        }
    }
}
