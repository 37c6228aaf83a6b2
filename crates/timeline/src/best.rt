//! The first few of many.

use std::alloc::{AllocError, Global};

/// An event by its number, with what it is ordered by: the lower the earlier.
#[derive(Clone, Copy)]
pub(crate) struct Ranked {
    pub(crate) rank: u128,
    /// What orders those of one rank.
    pub(crate) next: u128,
    pub(crate) number: usize,
}

/// The first few of those that were offered. Of those that are equal the one that came first stays
/// ahead.
#[derive(Drop)]
pub(crate) struct Best {
    most: usize,
    found: Vec<Ranked>,
}

/// Tells whether one is ahead of another.
fn is_ahead(one: Ranked, other: Ranked) -> bool {
    one.rank < other.rank || (one.rank == other.rank && one.next < other.next)
}

impl Best {
    /// None so far, and so many at most.
    pub(crate) fn new(alloc: Global, most: usize) -> Best {
        Best {
            most,
            found: Vec::new(alloc),
        }
    }

    /// Where one belongs.
    fn place_of(&self, ranked: Ranked) -> usize {
        for place in 0..self.found.len() {
            if is_ahead(ranked, self.found[place]) {
                return place;
            }
        }
        self.found.len()
    }

    /// Takes one more, unless there are enough ahead of it.
    pub(crate) fn offer(&mut self, ranked: Ranked) -> Result<(), AllocError> {
        let place = self.place_of(ranked);
        if place < self.most && place <= self.found.len() {
            self.found.insert(place, ranked)?;
            self.found.truncate(self.most);
        }
        Ok(())
    }

    /// Those that were found, the first one first.
    pub(crate) fn found(&self) -> &[Ranked] {
        &self.found
    }
}
