//! Landmarks, and small sets that have one build of each.

use crate::numbers::{at, put};
use crate::task::Task;
use std::alloc::AllocError;

/// Sets of dear builds, of each of which one must be chosen.
#[derive(Drop)]
pub(crate) struct Landmarks {
    sets: Vec<Vec<usize>>,
    /// By place: the numbers of the sets that have the build.
    of_place: Vec<Vec<usize>>,
}

/// Counts one up or down.
fn add_to(counts: &mut [usize], number: usize) {
    let count = at(counts, number, 0).saturating_add(1);
    put(counts, number, count);
}

fn take_from(counts: &mut [usize], number: usize) {
    let count = at(counts, number, 0).saturating_sub(1);
    put(counts, number, count);
}

/// The first of some builds with the greatest count, if that is not 0.
fn most_counted(places: &[usize], counts: &[usize]) -> Option<usize> {
    let mut best = None;
    let mut most = 0;
    for place in places {
        let count = at(counts, *place, 0);
        if count > most {
            best = Some(*place);
            most = count;
        }
    }
    best
}

impl Landmarks {
    /// None.
    pub(crate) fn new(task: Task<'_>) -> Result<Landmarks, AllocError> {
        let mut of_place = Vec::new(task.alloc);
        for _ in 0..task.builds.len() {
            of_place.push(Vec::new(task.alloc))?;
        }
        Ok(Landmarks {
            sets: Vec::new(task.alloc),
            of_place,
        })
    }

    /// How many there are.
    pub(crate) fn len(&self) -> usize {
        self.sets.len()
    }

    /// The builds of a landmark.
    fn set(&self, number: usize) -> &[usize] {
        match self.sets.get(number) {
            Some(set) => set.as_slice(),
            None => &[],
        }
    }

    /// The landmarks that have a build.
    fn of(&self, place: usize) -> &[usize] {
        match self.of_place.get(place) {
            Some(numbers) => numbers.as_slice(),
            None => &[],
        }
    }

    /// In how many landmarks a build is.
    pub(crate) fn count(&self, place: usize) -> usize {
        self.of(place).len()
    }

    fn push(&mut self, set: Vec<usize>) -> Result<(), AllocError> {
        let number = self.sets.len();
        for place in &set {
            match self.of_place.get_mut(*place) {
                Some(numbers) => numbers.push(number)?,
                None => {}
            }
        }
        self.sets.push(set)?;
        Ok(())
    }

    /// Chooses a build: of each landmark, how many of its builds are chosen; of each build, in how many
    /// landmarks it is that have none yet.
    fn choose(&self, place: usize, hits: &mut [usize], counts: &mut [usize]) {
        for number in self.of(place) {
            if at(hits, *number, 0) == 0 {
                for other in self.set(*number) {
                    take_from(counts, *other);
                }
            }
            add_to(hits, *number);
        }
    }

    /// Builds of which each landmark has one: time and again the one that is in most of those that
    /// have none yet.
    fn greedy(
        &self,
        task: Task<'_>,
        dear: &[usize],
        hits: &mut [usize],
    ) -> Result<Vec<usize>, AllocError> {
        let mut counts = Vec::new(task.alloc);
        for place in 0..task.builds.len() {
            counts.push(self.count(place))?;
        }
        let mut chosen = Vec::new(task.alloc);
        for _ in 0..self.sets.len() {
            match most_counted(dear, &counts) {
                Some(place) => {
                    self.choose(place, hits, &mut counts);
                    chosen.push(place)?;
                }
                None => break,
            }
        }
        Ok(chosen)
    }

    /// Tells whether each landmark of a build has another one that is chosen.
    fn is_needless(&self, place: usize, hits: &[usize]) -> bool {
        for number in self.of(place) {
            if at(hits, *number, 0) < 2 {
                return false;
            }
        }
        true
    }

    /// A small set that has one of each: without what is needless, the first place first.
    fn hitting(&self, task: Task<'_>, dear: &[usize]) -> Result<Vec<usize>, AllocError> {
        let mut hits = Vec::new(task.alloc);
        for _ in 0..self.sets.len() {
            hits.push(0)?;
        }
        let mut chosen = self.greedy(task, dear, &mut hits)?;
        chosen.sort()?;
        let mut kept = Vec::new(task.alloc);
        for place in &chosen {
            if self.is_needless(*place, &hits) {
                for number in self.of(*place) {
                    take_from(&mut hits, *number);
                }
            } else {
                kept.push(*place)?;
            }
        }
        Ok(kept)
    }

    /// A further landmark, and then a small set that has one of each.
    pub(crate) fn hitting_with(
        &mut self,
        task: Task<'_>,
        dear: &[usize],
        set: Vec<usize>,
    ) -> Result<Vec<usize>, AllocError> {
        self.push(set)?;
        self.hitting(task, dear)
    }
}
