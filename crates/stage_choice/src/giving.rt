//! What is given so far, and what builds still need.

use crate::numbers::{at, put};
use crate::task::Task;
use std::alloc::AllocError;

/// Nobody: past the last build.
const NOBODY: usize = usize::MAX;

/// What the builds that were made give, and how much the others lack.
#[derive(Drop)]
pub(crate) struct Giving {
    /// By place: it may be made.
    is_open: Vec<bool>,
    /// By place: how much of what it needs is not given.
    left: Vec<usize>,
    /// By thing: the build that gave it first.
    giver: Vec<usize>,
    given: Vec<u32>,
}

impl Giving {
    /// Nothing is given yet, and some builds may be made.
    pub(crate) fn new(task: Task<'_>, places: &[usize]) -> Result<Giving, AllocError> {
        let mut giving = Giving {
            is_open: Vec::new(task.alloc),
            left: Vec::new(task.alloc),
            giver: Vec::new(task.alloc),
            given: Vec::new(task.alloc),
        };
        for build in task.builds {
            giving.is_open.push(false)?;
            giving.left.push(build.needs.len())?;
        }
        for _ in 0..task.askers.things() {
            giving.giver.push(NOBODY)?;
        }
        for place in places {
            put(&mut giving.is_open, *place, true);
        }
        Ok(giving)
    }

    /// Tells whether a build may be made.
    pub(crate) fn is_open(&self, place: usize) -> bool {
        at(&self.is_open, place, false)
    }

    /// Says whether a build may be made.
    pub(crate) fn set_open(&mut self, place: usize, is_open: bool) {
        put(&mut self.is_open, place, is_open);
    }

    /// Tells whether a build may be made and all that it needs is given.
    pub(crate) fn is_ready(&self, place: usize) -> bool {
        self.is_open(place) && at(&self.left, place, 1) == 0
    }

    /// The build that gave a thing first; a place past the last where none did.
    pub(crate) fn giver(&self, thing: u32) -> usize {
        at(&self.giver, thing as usize, NOBODY)
    }

    /// How much is given.
    pub(crate) fn count(&self) -> usize {
        self.given.len()
    }

    /// Gives what a build gives, and puts to a list the builds that are ready by it.
    pub(crate) fn give(
        &mut self,
        task: Task<'_>,
        place: usize,
        ready: &mut Vec<usize>,
    ) -> Result<(), AllocError> {
        for thing in task.gives(place) {
            if self.giver(*thing) == NOBODY {
                put(&mut self.giver, *thing as usize, place);
                self.given.push(*thing)?;
                self.tell(task, *thing, ready)?;
            }
        }
        Ok(())
    }

    /// Tells those who need a thing that it is given.
    fn tell(
        &mut self,
        task: Task<'_>,
        thing: u32,
        ready: &mut Vec<usize>,
    ) -> Result<(), AllocError> {
        for place in task.askers.of(thing) {
            let left = at(&self.left, *place, 0).saturating_sub(1);
            put(&mut self.left, *place, left);
            if left == 0 && self.is_open(*place) {
                ready.push(*place)?;
            }
        }
        Ok(())
    }

    /// Takes back what was given last, down to so much.
    pub(crate) fn take_back(&mut self, task: Task<'_>, count: usize) {
        for number in count..self.given.len() {
            let thing = at(&self.given, number, u32::MAX);
            put(&mut self.giver, thing as usize, NOBODY);
            for place in task.askers.of(thing) {
                let left = at(&self.left, *place, 0).saturating_add(1);
                put(&mut self.left, *place, left);
            }
        }
        self.given.truncate(count);
    }
}
