//! What can be configured together.

use crate::lane::Lane;
use crate::marks::Marks;
use draft_search::FarmNumbers;
use std::alloc::AllocError;

impl Lane {
    /// Tells whether an entry is met by what is configured or in a set.
    fn is_met_with(&self, farm: &FarmNumbers, entry: usize, members: &Marks) -> bool {
        for variant in farm.meets(entry) {
            let name = farm.name(*variant);
            if self.chroot.held(name) == *variant
                && (self.chroot.is_configured(name) || members.has(name))
            {
                return true;
            }
        }
        false
    }

    /// Tells whether something that is there breaks a variant.
    fn is_broken(&self, farm: &FarmNumbers, variant: usize) -> bool {
        for other in farm.excludes(variant) {
            if self.chroot.has(farm, *other) && farm.breaks(*other).contains(&variant) {
                return true;
            }
        }
        false
    }

    /// Tells whether a name of a set can be configured with the others.
    fn can_configure(&self, farm: &FarmNumbers, name: usize, members: &Marks) -> bool {
        let variant = self.chroot.held(name);
        let pre_depends = farm.pre_depends(variant);
        for (place, entry) in farm.entries_of(variant).iter().enumerate() {
            let is_met = if place < pre_depends {
                self.is_met(farm, *entry)
            } else {
                self.is_met_with(farm, *entry, members)
            };
            if !is_met {
                return false;
            }
        }
        !self.is_broken(farm, variant)
    }

    /// The names that are unpacked and not configured.
    fn unpacked(&self) -> Result<Marks, AllocError> {
        let mut members = Marks::new(self.alloc, self.chroot.names())?;
        for name in 0..self.chroot.names() {
            if self.chroot.is_unpacked(name) {
                members.add(name);
            }
        }
        Ok(members)
    }

    /// Takes out of a set what cannot be configured with the others; `false` where that is nothing.
    fn fall_out(&self, farm: &FarmNumbers, members: &mut Marks) -> Result<bool, AllocError> {
        let mut bad = Vec::new(self.alloc);
        for name in 0..self.chroot.names() {
            if members.has(name) && !self.can_configure(farm, name, members) {
                bad.push(name)?;
            }
        }
        for name in &bad {
            members.take_out(*name);
        }
        Ok(!bad.is_empty())
    }

    /// Configures all that can be configured together; `false` where that is nothing.
    pub(crate) fn configure_all(&mut self, farm: &FarmNumbers) -> Result<bool, AllocError> {
        let mut members = self.unpacked()?;
        if members.is_empty() {
            return Ok(false);
        }
        for _ in 0..=self.chroot.names() {
            if !self.fall_out(farm, &mut members)? {
                break;
            }
        }
        if members.is_empty() {
            return Ok(false);
        }
        self.configure_set(&members)?;
        Ok(true)
    }

    /// Configures as long as something can be.
    pub(crate) fn configure_on(&mut self, farm: &FarmNumbers) -> Result<(), AllocError> {
        for _ in 0..=self.chroot.names() {
            if !self.configure_all(farm)? {
                break;
            }
        }
        Ok(())
    }
}
