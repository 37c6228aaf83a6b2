//! What a chroot holds before it comes to what it is to hold.

use crate::ask::Ask;
use std::alloc::{AllocError, Global};

impl Ask<'_> {
    /// Tells whether one of another name serves an entry of a variant in a set.
    fn is_served(&self, found: &[usize], variant: usize, entry: usize) -> bool {
        let name = self.farm.name(variant);
        for other in self.farm.meets(entry) {
            if self.farm.name(*other) != name && found.contains(other) {
                return true;
            }
        }
        false
    }

    /// Tells whether a set has a variant of a name.
    fn has_name(&self, found: &[usize], name: usize) -> bool {
        found.iter().any(|variant| self.farm.name(*variant) == name)
    }

    /// What is there before a set that was asked for loosely, and need not be in it: others that
    /// serve a Pre-Depends, and versions of Essential packages that are not Essential.
    pub fn helpers(&self, alloc: Global, found: &[usize]) -> Result<Vec<usize>, AllocError> {
        let mut helpers = Vec::new(alloc);
        for variant in self.held {
            let name = self.farm.name(*variant);
            if self.farm.facts(*variant).is_essential && !self.has_name(found, name) {
                match self.version_that_may_go(*variant) {
                    Some(version) => helpers.push(version)?,
                    None => {}
                }
            }
        }
        for variant in found {
            if !self.is_held(*variant) {
                self.push_servers(&mut helpers, found, *variant)?;
            }
        }
        Ok(helpers)
    }

    /// Adds those that serve a Pre-Depends of a variant before it is there, where none of a set does.
    fn push_servers(
        &self,
        helpers: &mut Vec<usize>,
        found: &[usize],
        variant: usize,
    ) -> Result<(), AllocError> {
        for (place, entry) in self.farm.entries_of(variant).iter().enumerate() {
            if place < self.farm.pre_depends(variant) && !self.is_served(found, variant, *entry) {
                match self.server_before(variant, *entry) {
                    Some(server) => helpers.push(server)?,
                    None => {}
                }
            }
        }
        Ok(())
    }
}
