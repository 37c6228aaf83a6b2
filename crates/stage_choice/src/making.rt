//! Making of builds, one after another.

use crate::giving::Giving;
use crate::numbers::at;
use crate::task::Task;
use std::alloc::AllocError;

/// What is made so far of the builds that may be made.
#[derive(Drop)]
pub(crate) struct Making {
    giving: Giving,
    /// Those that can be made, and of how many of them all is given.
    made: Vec<usize>,
    done: usize,
}

/// Puts those of some builds that are ready to a list.
fn push_ready(giving: &Giving, places: &[usize], ready: &mut Vec<usize>) -> Result<(), AllocError> {
    for place in places {
        if giving.is_ready(*place) {
            ready.push(*place)?;
        }
    }
    Ok(())
}

impl Making {
    /// Makes what can be made of some builds, until the end is ready.
    pub(crate) fn new(task: Task<'_>, places: &[usize]) -> Result<Making, AllocError> {
        let mut making = Making {
            giving: Giving::new(task, places)?,
            made: Vec::new(task.alloc),
            done: 0,
        };
        push_ready(&making.giving, places, &mut making.made)?;
        making.go_on(task)?;
        Ok(making)
    }

    /// Tells whether the end can be made.
    pub(crate) fn has_end(&self, task: Task<'_>) -> bool {
        self.giving.is_ready(task.end)
    }

    /// Makes what can be made, until the end is ready.
    fn go_on(&mut self, task: Task<'_>) -> Result<(), AllocError> {
        for _ in 0..=task.builds.len() {
            if self.done >= self.made.len() || self.has_end(task) {
                return Ok(());
            }
            let place = at(&self.made, self.done, usize::MAX);
            self.done = self.done.saturating_add(1);
            self.giving.give(task, place, &mut self.made)?;
        }
        Ok(())
    }

    /// Lets a further build be made, if the end cannot be made then. `false` where it can.
    pub(crate) fn open(&mut self, task: Task<'_>, place: usize) -> Result<bool, AllocError> {
        if self.giving.is_open(place) {
            return Ok(true);
        }
        let (made, given) = (self.made.len(), self.giving.count());
        self.giving.set_open(place, true);
        push_ready(&self.giving, &[place], &mut self.made)?;
        self.go_on(task)?;
        if !self.has_end(task) {
            return Ok(true);
        }
        self.giving.set_open(place, false);
        self.giving.take_back(task, given);
        self.made.truncate(made);
        self.done = made;
        Ok(false)
    }
}

/// How many rounds it takes to make some builds, if in each round all is made that can be.
pub(crate) fn rounds_of(task: Task<'_>, places: &[usize]) -> Result<usize, AllocError> {
    let mut giving = Giving::new(task, places)?;
    let mut now = Vec::new(task.alloc);
    push_ready(&giving, places, &mut now)?;
    let mut rounds = 0usize;
    for _ in 0..places.len() {
        if now.is_empty() {
            break;
        }
        rounds = rounds.saturating_add(1);
        now = give_all(task, &mut giving, &now)?;
    }
    Ok(rounds)
}

/// Gives what some builds give. Those that are ready by it.
fn give_all(
    task: Task<'_>,
    giving: &mut Giving,
    places: &[usize],
) -> Result<Vec<usize>, AllocError> {
    let mut ready = Vec::new(task.alloc);
    for place in places {
        giving.give(task, *place, &mut ready)?;
    }
    Ok(ready)
}
