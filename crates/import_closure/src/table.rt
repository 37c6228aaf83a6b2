//! Numbers of blocks, listed under names.

use std::alloc::{AllocError, Global};
use std::collections::HashMap;

/// Numbers by name, in the order in which they were added.
#[derive(Drop)]
pub struct NameTable {
    lists: HashMap<Vec<u8>, Vec<u32>>,
}

impl NameTable {
    /// A table without names.
    pub fn new(alloc: Global) -> NameTable {
        NameTable {
            lists: HashMap::new(alloc),
        }
    }

    /// The numbers under a name.
    pub fn listed(&self, name: &[u8]) -> &[u32] {
        match self.lists.get(name) {
            Some(list) => list,
            None => &[],
        }
    }

    /// The names, by the order of their bytes.
    pub fn names(&self, alloc: Global) -> Result<Vec<&[u8]>, AllocError> {
        let mut names: Vec<&[u8]> = Vec::new(alloc);
        for name in self.lists.keys() {
            names.push(name.as_slice())?;
        }
        names.sort_unstable();
        Ok(names)
    }

    fn add_new(&mut self, alloc: Global, name: &[u8], number: u32) -> Result<(), AllocError> {
        let mut list = Vec::new(alloc);
        list.push(number)?;
        self.lists.insert(Vec::from_slice(alloc, name)?, list)?;
        Ok(())
    }

    /// Lists a number under a name, if it is not the last that is listed there.
    pub fn add(&mut self, alloc: Global, name: &[u8], number: u32) -> Result<(), AllocError> {
        let Some(list) = self.lists.get_mut(name) else {
            return self.add_new(alloc, name, number);
        };
        if list.last() != Some(&number) {
            list.push(number)?;
        }
        Ok(())
    }
}
