//! What a chroot holds while a lane is being written.

use draft_search::{FarmNumbers, at, put};
use std::alloc::{AllocError, Global};

/// Where no variant is.
pub(crate) const NONE: usize = usize::MAX;

/// What a chroot holds, by name.
#[derive(Drop)]
pub(crate) struct Chroot {
    held: Vec<usize>,
    is_configured: Vec<bool>,
    /// The variant that was configured last.
    last: Vec<usize>,
    used: u64,
    /// How many names have a variant here.
    count: usize,
}

impl Chroot {
    /// A base chroot.
    pub(crate) fn new(
        alloc: Global,
        farm: &FarmNumbers,
        base: usize,
    ) -> Result<Chroot, AllocError> {
        let names = farm.names();
        let mut chroot = Chroot {
            held: vec![in alloc; NONE; names]?,
            is_configured: vec![in alloc; false; names]?,
            last: vec![in alloc; NONE; names]?,
            used: 0,
            count: 0,
        };
        for variant in farm.base(base) {
            chroot.unpack(farm, *variant);
            chroot.configure(farm.name(*variant));
        }
        Ok(chroot)
    }

    /// A copy.
    pub(crate) fn copy(&self) -> Result<Chroot, AllocError> {
        Ok(Chroot {
            held: self.held.clone()?,
            is_configured: self.is_configured.clone()?,
            last: self.last.clone()?,
            used: self.used,
            count: self.count,
        })
    }

    /// By name: the variant that is there.
    pub(crate) fn all(&self) -> &[usize] {
        &self.held
    }

    /// How many names there are.
    pub(crate) fn names(&self) -> usize {
        self.held.len()
    }

    /// How much of the disk the packages take, in KiB.
    pub(crate) fn used(&self) -> u64 {
        self.used
    }

    /// How many names have a variant here.
    pub(crate) fn count(&self) -> usize {
        self.count
    }

    /// The variant that is there of a name.
    pub(crate) fn held(&self, name: usize) -> usize {
        at(&self.held, name, NONE)
    }

    /// Tells whether a name has a variant here.
    pub(crate) fn is_there(&self, name: usize) -> bool {
        self.held(name) != NONE
    }

    /// Tells whether the variant of a name is configured.
    pub(crate) fn is_configured(&self, name: usize) -> bool {
        at(&self.is_configured, name, false)
    }

    /// Tells whether a name has a variant that is not configured.
    pub(crate) fn is_unpacked(&self, name: usize) -> bool {
        self.is_there(name) && !self.is_configured(name)
    }

    /// The variant of a name that was configured last.
    pub(crate) fn last(&self, name: usize) -> usize {
        at(&self.last, name, NONE)
    }

    /// Tells whether a variant is there, configured or not.
    pub(crate) fn has(&self, farm: &FarmNumbers, variant: usize) -> bool {
        self.held(farm.name(variant)) == variant
    }

    /// Tells whether a variant is there and configured.
    pub(crate) fn has_configured(&self, farm: &FarmNumbers, variant: usize) -> bool {
        let name = farm.name(variant);
        self.held(name) == variant && self.is_configured(name)
    }

    /// Puts a variant in the place of what is there of its name.
    pub(crate) fn unpack(&mut self, farm: &FarmNumbers, variant: usize) {
        let name = farm.name(variant);
        let old = farm.facts(self.held(name)).size;
        let new = farm.facts(variant).size;
        self.used = self.used.saturating_sub(old).saturating_add(new);
        if !self.is_there(name) {
            self.count = self.count.saturating_add(1);
        }
        put(&mut self.held, name, variant);
        put(&mut self.is_configured, name, false);
    }

    /// Configures what is there of a name.
    pub(crate) fn configure(&mut self, name: usize) {
        let variant = self.held(name);
        put(&mut self.is_configured, name, true);
        put(&mut self.last, name, variant);
    }

    /// Takes what is there of a name back to unpacked.
    pub(crate) fn deconfigure(&mut self, name: usize) {
        put(&mut self.is_configured, name, false);
    }

    /// Removes what is there of a name.
    pub(crate) fn remove(&mut self, farm: &FarmNumbers, name: usize) {
        self.used = self.used.saturating_sub(farm.facts(self.held(name)).size);
        if self.is_there(name) {
            self.count = self.count.saturating_sub(1);
        }
        put(&mut self.held, name, NONE);
        put(&mut self.is_configured, name, false);
        put(&mut self.last, name, NONE);
    }
}
