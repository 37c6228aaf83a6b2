//! Numbers of packages: one for each name and version.

use import_closure::{NameTable, Shelf};
use std::alloc::{AllocError, Global};
use std::cmp::Ordering;

/// The things that builds need and give: packages by name and version, numbered in the order in
/// which they were met. Of each the block stands here in which it was met first.
#[derive(Drop)]
pub struct Things {
    by_name: NameTable,
    blocks: Vec<u32>,
}

impl Things {
    /// No thing.
    pub(crate) fn new(alloc: Global) -> Things {
        Things {
            by_name: NameTable::new(alloc),
            blocks: Vec::new(alloc),
        }
    }

    /// How many there are.
    pub fn count(&self) -> usize {
        self.blocks.len()
    }

    /// The block of a thing's package.
    pub fn block(&self, thing: u32) -> Option<u32> {
        self.blocks.get(thing as usize).copied()
    }

    /// Tells whether a thing is the package of this version.
    fn is_it(&self, shelf: &Shelf, thing: u32, number: u32) -> bool {
        let Some(block) = self.block(thing) else {
            return false;
        };
        match (shelf.given(block), shelf.given(number)) {
            (Some(one), Some(two)) => one.version.compare(&two.version) == Ordering::Equal,
            _ => false,
        }
    }

    /// The thing of a block's package, if it has a number.
    fn found(&self, shelf: &Shelf, name: &[u8], number: u32) -> Option<u32> {
        for thing in self.by_name.listed(name) {
            if self.is_it(shelf, *thing, number) {
                return Some(*thing);
            }
        }
        None
    }

    fn add(&mut self, alloc: Global, name: &[u8], number: u32) -> Result<u32, AllocError> {
        let count = self.blocks.len();
        if count >= u32::MAX as usize {
            return Err(AllocError);
        }
        self.blocks.push(number)?;
        self.by_name.add(alloc, name, count as u32)?;
        Ok(count as u32)
    }

    /// The thing that a block's package is. It gets a number where it has none.
    pub fn number(&mut self, alloc: Global, shelf: &Shelf, number: u32) -> Result<u32, AllocError> {
        let Some(given) = shelf.given(number) else {
            return Err(AllocError);
        };
        match self.found(shelf, &given.name, number) {
            Some(thing) => Ok(thing),
            None => self.add(alloc, &given.name, number),
        }
    }
}
