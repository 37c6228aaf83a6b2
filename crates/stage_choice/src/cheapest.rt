//! A set of builds that leads to the end, by the order of Dijkstra: the set of a build is itself and
//! the sets of those that give what it needs, each thing from the first that gave it. Of those that
//! can be made the one whose set weighs least is next.

use crate::giving::Giving;
use crate::places::{Places, weight_of};
use crate::task::Task;
use std::alloc::AllocError;

/// The sets that are known, and the builds that are to be made next.
#[derive(Drop)]
struct Settling {
    giving: Giving,
    /// By place: its set; without words where that is not known.
    sets: Vec<Places>,
    /// The weight of its set, and the build.
    next: Vec<(u64, usize)>,
}

/// The number of the least pair.
fn least_of(pairs: &[(u64, usize)]) -> Option<usize> {
    let mut best = None;
    let mut least = (u64::MAX, usize::MAX);
    for (number, pair) in pairs.iter().enumerate() {
        let (weight, place) = *pair;
        if weight < least.0 || weight == least.0 && place < least.1 {
            best = Some(number);
            least = *pair;
        }
    }
    best
}

impl Settling {
    fn new(task: Task<'_>, places: &[usize]) -> Result<Settling, AllocError> {
        let mut settling = Settling {
            giving: Giving::new(task, places)?,
            sets: Vec::new(task.alloc),
            next: Vec::new(task.alloc),
        };
        for _ in 0..task.builds.len() {
            settling.sets.push(Places::none(task.alloc, 0)?)?;
        }
        for place in places {
            if settling.giving.is_ready(*place) {
                settling.add(task, *place)?;
            }
        }
        Ok(settling)
    }

    /// The set of a build, all of whose needs are given.
    fn set_of(&self, task: Task<'_>, place: usize) -> Result<Places, AllocError> {
        let mut set = Places::none(task.alloc, task.builds.len())?;
        set.add(place);
        for thing in task.needs(place) {
            let giver = self.giving.giver(*thing);
            // what is in the set is there with its own set
            if !set.has(giver) {
                match self.sets.get(giver) {
                    Some(other) => set.join(other),
                    None => {}
                }
            }
        }
        Ok(set)
    }

    fn add(&mut self, task: Task<'_>, place: usize) -> Result<(), AllocError> {
        let set = self.set_of(task, place)?;
        let weight = weight_of(task.builds, &set.list(task.alloc)?);
        self.next.push((weight, place))?;
        match self.sets.get_mut(place) {
            Some(own) => *own = set,
            None => {}
        }
        Ok(())
    }

    fn settle(&mut self, task: Task<'_>, place: usize) -> Result<(), AllocError> {
        let mut ready = Vec::new(task.alloc);
        self.giving.give(task, place, &mut ready)?;
        for other in &ready {
            self.add(task, *other)?;
        }
        Ok(())
    }

    fn pop(&mut self) -> Option<usize> {
        match least_of(&self.next) {
            Some(number) if number < self.next.len() => Some(self.next.swap_remove(number).1),
            _ => None,
        }
    }
}

/// A set of some builds that leads to the end; no build where they do not.
pub(crate) fn cheapest(task: Task<'_>, places: &[usize]) -> Result<Vec<usize>, AllocError> {
    let mut settling = Settling::new(task, places)?;
    for _ in 0..task.builds.len() {
        if settling.giving.is_ready(task.end) {
            break;
        }
        match settling.pop() {
            Some(place) => settling.settle(task, place)?,
            None => break,
        }
    }
    match settling.sets.get(task.end) {
        Some(set) => set.list(task.alloc),
        None => Ok(Vec::new(task.alloc)),
    }
}
