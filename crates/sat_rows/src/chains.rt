//! Where entries may be found by a number of their texts. It is a hint: an entry that it names is
//! looked at, and one that it does not name is put in once more.

use std::alloc::{AllocError, Global};

/// The number of no entry.
pub const NONE: usize = usize::MAX;

/// How many places there are at least: one package may have very many entries.
const LEAST_PLACES: usize = 4_096;

/// How many times as many places there are, once there are as many entries as places.
const TIMES: usize = 4;

/// The entries at each place, the last one first.
#[derive(Drop)]
pub struct Chains {
    /// The number of each entry's text.
    hashes: Vec<u64>,
    /// The entry before each at the same place, or [`NONE`].
    before: Vec<usize>,
    /// The last entry at each place, or [`NONE`].
    last: Vec<usize>,
}

impl Chains {
    /// No entries, with so many places and some thousands at least.
    pub fn new(alloc: Global, places: usize) -> Result<Chains, AllocError> {
        Ok(Chains {
            hashes: Vec::new(alloc),
            before: Vec::new(alloc),
            last: Vec::from_elem(alloc, NONE, places.max(LEAST_PLACES))?,
        })
    }

    fn place_of(&self, hash: u64) -> usize {
        (hash as usize).checked_rem(self.last.len()).unwrap_or(0)
    }

    /// The last entry at the place of such a text, or [`NONE`].
    pub fn last(&self, hash: u64) -> usize {
        self.last.get(self.place_of(hash)).copied().unwrap_or(NONE)
    }

    /// The entry before one at its place, or [`NONE`].
    pub fn before(&self, number: usize) -> usize {
        self.before.get(number).copied().unwrap_or(NONE)
    }

    /// Puts the next entry at the place of its text. There are more places by then where there were
    /// as many entries.
    pub fn push(&mut self, hash: u64) -> Result<(), AllocError> {
        let number = self.hashes.len();
        if number >= self.last.len() {
            self.spread()?;
        }
        self.hashes.push(hash)?;
        self.before.push(NONE)?;
        self.put(number, hash);
        Ok(())
    }

    fn put(&mut self, number: usize, hash: u64) {
        let place = self.place_of(hash);
        if let Some(before) = self.before.get_mut(number) {
            *before = self.last.get(place).copied().unwrap_or(NONE);
        }
        if let Some(last) = self.last.get_mut(place) {
            *last = number;
        }
    }

    /// Spreads the entries over more places.
    fn spread(&mut self) -> Result<(), AllocError> {
        let alloc = *self.last.allocator();
        let places = self.last.len().saturating_mul(TIMES);
        self.last = Vec::from_elem(alloc, NONE, places)?;
        for number in 0..self.hashes.len() {
            let hash = self.hashes.get(number).copied().unwrap_or(0);
            self.put(number, hash);
        }
        Ok(())
    }
}
