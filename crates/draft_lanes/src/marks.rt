//! Sets of names.

use draft_search::{at, put};
use std::alloc::{AllocError, Global};

/// A set of names, by number.
#[derive(Drop)]
pub struct Marks {
    marks: Vec<bool>,
    count: usize,
}

impl Marks {
    /// The empty set, over so many names.
    pub fn new(alloc: Global, names: usize) -> Result<Marks, AllocError> {
        Ok(Marks {
            marks: vec![in alloc; false; names]?,
            count: 0,
        })
    }

    /// Tells whether a name is in the set.
    pub fn has(&self, name: usize) -> bool {
        at(&self.marks, name, false)
    }

    /// Tells whether no name is in the set.
    pub fn is_empty(&self) -> bool {
        self.count == 0
    }

    /// How many names are in the set.
    pub fn len(&self) -> usize {
        self.count
    }

    /// Adds a name.
    pub fn add(&mut self, name: usize) {
        if !self.has(name) && name < self.marks.len() {
            put(&mut self.marks, name, true);
            self.count = self.count.saturating_add(1);
        }
    }

    /// Takes a name out.
    pub fn take_out(&mut self, name: usize) {
        if self.has(name) {
            put(&mut self.marks, name, false);
            self.count = self.count.saturating_sub(1);
        }
    }

    /// The names of the set, in their order.
    pub fn names(&self, alloc: Global) -> Result<Vec<usize>, AllocError> {
        let mut names = Vec::with_capacity(alloc, self.count)?;
        for name in 0..self.marks.len() {
            if self.has(name) {
                names.push(name)?;
            }
        }
        Ok(names)
    }
}
