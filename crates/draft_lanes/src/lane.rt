//! A lane that is being written.

use crate::chroot::Chroot;
use crate::marks::Marks;
use crate::published::Published;
use draft_search::{FarmNumbers, at, put};
use std::alloc::{AllocError, Global};

/// A line of a lane. Variants, names and recipes go by their numbers.
#[derive(Drop)]
pub enum Step {
    Unpack(usize),
    Configure(Vec<usize>),
    Deconfigure(Vec<usize>),
    Remove(Vec<usize>),
    Build(usize),
    Publish(usize),
    /// Waits for a variant, in its version.
    Wait(usize),
}

/// A lane: what its chroot holds, what it knows of the archive, and its lines. Each line is made
/// only where its rule has no trap for it.
#[derive(Drop)]
pub struct Lane {
    pub(crate) alloc: Global,
    base: usize,
    pub(crate) capacity: u64,
    pub(crate) chroot: Chroot,
    /// By recipe: how many of its outputs are there for sure.
    pub(crate) known: Vec<usize>,
    steps: Vec<Step>,
    cost: u64,
    /// When the lane comes to its end, if costs are times.
    pub(crate) time: u64,
    /// The recipe whose publication the next build had to wait for, and the last one built here.
    pub(crate) cause: Option<usize>,
    last: Option<usize>,
    /// The recipes that were built here, each with what the lane had cost behind it.
    ends: Vec<(usize, u64)>,
}

/// A state of a lane to which it can go back.
#[derive(Drop)]
pub struct Saved {
    chroot: Chroot,
    known: Vec<usize>,
    steps: usize,
    cost: u64,
    time: u64,
    cause: Option<usize>,
}

impl Lane {
    /// A lane without lines over a base chroot.
    pub fn new(alloc: Global, farm: &FarmNumbers, base: usize) -> Result<Lane, AllocError> {
        Ok(Lane {
            alloc,
            base,
            capacity: farm.capacity(base),
            chroot: Chroot::new(alloc, farm, base)?,
            known: vec![in alloc; 0; farm.recipes()]?,
            steps: Vec::new(alloc),
            cost: 0,
            time: 0,
            cause: None,
            last: None,
            ends: Vec::new(alloc),
        })
    }

    /// The number of the base chroot.
    pub fn base(&self) -> usize {
        self.base
    }

    /// By name: the variant that the chroot holds; another number where it holds none.
    pub fn held(&self) -> &[usize] {
        self.chroot.all()
    }

    /// By recipe: how many of its outputs are there for sure.
    pub fn known(&self) -> &[usize] {
        &self.known
    }

    /// The lines.
    pub fn steps(&self) -> &[Step] {
        &self.steps
    }

    /// The recipes that were built, each with what the lane had cost once it was published.
    pub fn ends(&self) -> &[(usize, u64)] {
        &self.ends
    }

    /// What the lines cost.
    pub fn cost(&self) -> u64 {
        self.cost
    }

    /// When the lane comes to its end, if costs are times.
    pub fn time(&self) -> u64 {
        self.time
    }

    /// The KiB that the packages take.
    pub fn used(&self) -> u64 {
        self.chroot.used()
    }

    /// How many names have a variant in the chroot.
    pub fn count(&self) -> usize {
        self.chroot.count()
    }

    /// Tells whether the archive has a variant for sure.
    pub fn is_sure(&self, farm: &FarmNumbers, variant: usize) -> bool {
        let facts = farm.facts(variant);
        match facts.giver {
            Some((recipe, place)) => at(&self.known, recipe, 0) > place,
            None => facts.is_initial,
        }
    }

    /// The state, to which the lane can go back.
    pub fn save(&self) -> Result<Saved, AllocError> {
        Ok(Saved {
            chroot: self.chroot.copy()?,
            known: self.known.clone()?,
            steps: self.steps.len(),
            cost: self.cost,
            time: self.time,
            cause: self.cause,
        })
    }

    /// Goes back to a state.
    pub fn go_back(&mut self, saved: Saved) {
        let Saved {
            chroot,
            known,
            steps,
            cost,
            time,
            cause,
        } = saved;
        self.chroot = chroot;
        self.known = known;
        self.steps.truncate(steps);
        self.cost = cost;
        self.time = time;
        self.cause = cause;
    }

    /// Adds a line that costs so much.
    pub(crate) fn say(&mut self, step: Step, cost: u64) -> Result<(), AllocError> {
        self.steps.push(step)?;
        self.cost = self.cost.saturating_add(cost);
        self.time = self.time.saturating_add(cost);
        Ok(())
    }

    /// Unpacks a variant.
    pub(crate) fn unpack(&mut self, farm: &FarmNumbers, variant: usize) -> Result<(), AllocError> {
        let cost = (farm.facts(variant).size / 1024).saturating_add(1);
        self.say(Step::Unpack(variant), cost)?;
        self.chroot.unpack(farm, variant);
        Ok(())
    }

    /// Configures names.
    pub(crate) fn configure_set(&mut self, names: &Marks) -> Result<(), AllocError> {
        for name in 0..self.chroot.names() {
            if names.has(name) {
                self.chroot.configure(name);
            }
        }
        self.say(
            Step::Configure(names.names(self.alloc)?),
            names.len() as u64,
        )
    }

    /// Takes names back to unpacked.
    pub(crate) fn deconfigure_set(&mut self, names: &Marks) -> Result<(), AllocError> {
        for name in 0..self.chroot.names() {
            if names.has(name) {
                self.chroot.deconfigure(name);
            }
        }
        self.say(
            Step::Deconfigure(names.names(self.alloc)?),
            names.len() as u64,
        )
    }

    /// Removes names.
    pub(crate) fn remove_set(
        &mut self,
        farm: &FarmNumbers,
        names: &Marks,
    ) -> Result<(), AllocError> {
        for name in 0..self.chroot.names() {
            if names.has(name) {
                self.chroot.remove(farm, name);
            }
        }
        self.say(Step::Remove(names.names(self.alloc)?), names.len() as u64)
    }

    /// Builds a recipe and publishes what it gives.
    pub fn build(
        &mut self,
        farm: &FarmNumbers,
        recipe: usize,
        published: &mut Published,
    ) -> Result<(), AllocError> {
        let outputs = farm.outputs(recipe).len();
        self.say(Step::Build(recipe), farm.recipe(recipe).steps)?;
        self.say(Step::Publish(recipe), outputs as u64)?;
        published.add(farm, recipe, &self.known, self.time)?;
        published.note_behind(recipe, self.cause.or(self.last));
        put(&mut self.known, recipe, outputs);
        self.cause = None;
        self.last = Some(recipe);
        self.ends.push((recipe, self.cost))?;
        Ok(())
    }
}
