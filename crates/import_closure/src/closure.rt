//! The least set that is closed under the best for each entry that is wanted.

use crate::PackageNames;
use crate::shelf::Shelf;
use deb_relation::{Entry, Relations};
use std::alloc::{AllocError, Global};
use std::collections::BTreeSet;

/// The names of the archive's index, whether entries are met out of it, and the names of what
/// builds give.
#[derive(Clone, Copy)]
pub struct Pools<'a> {
    pub archive: &'a PackageNames,
    pub takes_archive: bool,
    pub outputs: &'a PackageNames,
}

/// What was taken so far: blocks that are there at the beginning, and those whose needs are wanted.
#[derive(Drop)]
pub struct Closure {
    pub begin: BTreeSet<u32>,
    asked: BTreeSet<u32>,
}

impl Closure {
    /// Nothing is taken.
    pub fn new(alloc: Global) -> Closure {
        Closure {
            begin: BTreeSet::new(alloc),
            asked: BTreeSet::new(alloc),
        }
    }

    /// Tells whether the needs of the package of a block are wanted.
    pub fn is_asked(&self, number: u32) -> bool {
        self.asked.contains(&number)
    }

    /// Takes the best that meets an entry, and gives the blocks of the packages whose needs are
    /// wanted then.
    fn meet(
        &mut self,
        alloc: Global,
        shelf: &mut Shelf,
        pools: Pools,
        entry: &Entry,
    ) -> Result<[Option<u32>; 2], AllocError> {
        let mut there = None;
        if pools.takes_archive {
            there = shelf.best(alloc, pools.archive, entry)?;
        }
        if let Some(number) = there {
            self.begin.insert(number)?;
        }
        Ok([there, shelf.best(alloc, pools.outputs, entry)?])
    }

    /// Takes the best for each entry of a field, and gives the blocks of packages whose needs are
    /// wanted then.
    fn meet_all(
        &mut self,
        alloc: Global,
        shelf: &mut Shelf,
        pools: Pools,
        field: &Relations,
    ) -> Result<Vec<u32>, AllocError> {
        let mut next = Vec::new(alloc);
        for entry in field.entries() {
            for number in self.meet(alloc, shelf, pools, entry)? {
                if let Some(number) = number {
                    next.push(number)?;
                }
            }
        }
        Ok(next)
    }

    /// Puts what a package needs behind what is wanted, once.
    fn ask(
        &mut self,
        shelf: &Shelf,
        number: u32,
        todo: &mut Vec<Relations>,
    ) -> Result<(), AllocError> {
        if !self.asked.insert(number)? {
            return Ok(());
        }
        let Some(given) = shelf.given(number) else {
            return Ok(());
        };
        todo.push(given.relations.pre_depends.clone()?)?;
        todo.push(given.relations.depends.clone()?)?;
        Ok(())
    }

    /// Takes the best for each entry of the fields that are wanted, and for each of what those need.
    pub fn close(
        &mut self,
        alloc: Global,
        shelf: &mut Shelf,
        pools: Pools,
        wanted: Vec<Relations>,
    ) -> Result<(), AllocError> {
        let mut todo = wanted;
        for at in 0..usize::MAX {
            let Some(field) = todo.get(at) else {
                return Ok(());
            };
            for number in self.meet_all(alloc, shelf, pools, field)? {
                self.ask(shelf, number, &mut todo)?;
            }
        }
        Err(AllocError)
    }
}
