//! What is taken out of the way.

use crate::lane::Lane;
use crate::marks::Marks;
use crate::tests_of::Hindrance;
use draft_search::FarmNumbers;
use std::alloc::AllocError;

impl Lane {
    /// Tells whether an entry is met by what is configured without a set.
    fn is_met_without(&self, farm: &FarmNumbers, entry: usize, names: &Marks) -> bool {
        for variant in farm.meets(entry) {
            if self.chroot.has_configured(farm, *variant) && !names.has(farm.name(*variant)) {
                return true;
            }
        }
        false
    }

    /// Tells whether a configured name has an entry that is met, and would not be without a set.
    fn needs_some(&self, farm: &FarmNumbers, name: usize, names: &Marks) -> bool {
        for entry in farm.entries_of(self.chroot.held(name)) {
            if !self.is_met_without(farm, *entry, names) && self.is_met(farm, *entry) {
                return true;
            }
        }
        false
    }

    /// Adds to a set the configured names that need it; `false` where there is none.
    fn add_needing(&self, farm: &FarmNumbers, names: &mut Marks) -> Result<bool, AllocError> {
        let mut more = Vec::new(self.alloc);
        for name in 0..self.chroot.names() {
            if self.chroot.is_configured(name)
                && !names.has(name)
                && self.needs_some(farm, name, names)
            {
                more.push(name)?;
            }
        }
        for name in &more {
            names.add(*name);
        }
        Ok(!more.is_empty())
    }

    /// Adds to a set the configured names that need it, and those that need them.
    fn close(&self, farm: &FarmNumbers, names: &mut Marks) -> Result<(), AllocError> {
        for _ in 0..=self.chroot.names() {
            if !self.add_needing(farm, names)? {
                break;
            }
        }
        Ok(())
    }

    /// Those that need a set, without it.
    fn dependents(&self, farm: &FarmNumbers, names: &Marks) -> Result<Marks, AllocError> {
        let mut all = Marks::new(self.alloc, self.chroot.names())?;
        for name in 0..self.chroot.names() {
            if names.has(name) {
                all.add(name);
            }
        }
        self.close(farm, &mut all)?;
        for name in 0..self.chroot.names() {
            if names.has(name) {
                all.take_out(name);
            }
        }
        Ok(all)
    }

    /// Removes a set; what needs it is deconfigured first.
    pub(crate) fn take_away(
        &mut self,
        farm: &FarmNumbers,
        names: &Marks,
    ) -> Result<(), AllocError> {
        let mut dependents = self.dependents(farm, names)?;
        if !dependents.is_empty() {
            self.close(farm, &mut dependents)?;
            self.deconfigure_set(&dependents)?;
        }
        self.remove_set(farm, names)
    }

    /// Takes a name out of the way of a variant: removed where the two are in conflict, and else
    /// deconfigured. `false` where it is in conflict and Essential.
    fn clear_name(
        &mut self,
        farm: &FarmNumbers,
        variant: usize,
        name: usize,
    ) -> Result<bool, AllocError> {
        let mut names = Marks::new(self.alloc, self.chroot.names())?;
        names.add(name);
        let held = self.chroot.held(name);
        if !farm.conflicts(variant).contains(&held) {
            self.close(farm, &mut names)?;
            self.deconfigure_set(&names)?;
            return Ok(true);
        }
        if farm.facts(held).is_essential {
            return Ok(false);
        }
        self.take_away(farm, &names)?;
        Ok(true)
    }

    /// Makes room on the disk for a variant: removes what is not wanted, or else the other version of
    /// it. `false` where that is nothing.
    pub(crate) fn make_room(
        &mut self,
        farm: &FarmNumbers,
        variant: usize,
        wanted: &Marks,
    ) -> Result<bool, AllocError> {
        let mut gone = Marks::new(self.alloc, self.chroot.names())?;
        for name in 0..self.chroot.names() {
            if !wanted.has(name) && self.may_remove(farm, name) {
                gone.add(name);
            }
        }
        let own = farm.name(variant);
        if gone.is_empty() && self.may_remove(farm, own) {
            gone.add(own);
        }
        if gone.is_empty() {
            return Ok(false);
        }
        self.take_away(farm, &gone)?;
        Ok(true)
    }

    /// Tells whether something of a name is there and not Essential.
    fn may_remove(&self, farm: &FarmNumbers, name: usize) -> bool {
        self.chroot.is_there(name) && !farm.facts(self.chroot.held(name)).is_essential
    }

    /// Takes one thing out of the way of an unpack, where nothing else goes on; `false` where there
    /// is none.
    pub(crate) fn clear_one(
        &mut self,
        farm: &FarmNumbers,
        todo: &[usize],
    ) -> Result<bool, AllocError> {
        for variant in todo {
            match self.hindrance(farm, *variant)? {
                Hindrance::Names(names) => {
                    for name in &names {
                        if self.clear_name(farm, *variant, *name)? {
                            return Ok(true);
                        }
                    }
                }
                Hindrance::Nothing | Hindrance::PreDepends => {}
            }
        }
        Ok(false)
    }
}
