//! The tests of single instructions.

use crate::lane::Lane;
use draft_search::FarmNumbers;
use std::alloc::AllocError;

/// What stands in the way of an unpack.
#[derive(Drop)]
pub(crate) enum Hindrance {
    /// Nothing.
    Nothing,
    /// A Pre-Depends entry that is not met.
    PreDepends,
    /// Names that are in conflict or would be broken, in their order.
    Names(Vec<usize>),
}

impl Lane {
    /// Tells whether a Pre-Depends entry of a variant of a name is met (Debian Policy 7.2).
    fn is_pre_met(&self, farm: &FarmNumbers, entry: usize, own: usize) -> bool {
        let meets = farm.meets(entry);
        for variant in meets {
            let name = farm.name(*variant);
            if name != own && self.chroot.held(name) == *variant {
                if self.chroot.is_configured(name) {
                    return true;
                }
                if farm.is_only(entry) && meets.contains(&self.chroot.last(name)) {
                    return true;
                }
            }
        }
        false
    }

    /// Tells whether something that is configured meets an entry.
    pub(crate) fn is_met(&self, farm: &FarmNumbers, entry: usize) -> bool {
        for variant in farm.meets(entry) {
            if self.chroot.has_configured(farm, *variant) {
                return true;
            }
        }
        false
    }

    /// Tells whether all Pre-Depends of a variant are met.
    fn are_pre_met(&self, farm: &FarmNumbers, variant: usize) -> bool {
        let own = farm.name(variant);
        for (place, entry) in farm.entries_of(variant).iter().enumerate() {
            if place < farm.pre_depends(variant) && !self.is_pre_met(farm, *entry, own) {
                return false;
            }
        }
        true
    }

    /// What stands in the way of unpacking a variant.
    pub(crate) fn hindrance(
        &self,
        farm: &FarmNumbers,
        variant: usize,
    ) -> Result<Hindrance, AllocError> {
        let mut names = Vec::new(self.alloc);
        for other in farm.conflicts(variant) {
            if self.chroot.has(farm, *other) {
                names.push(farm.name(*other))?;
            }
        }
        for other in farm.breaks(variant) {
            if self.chroot.has_configured(farm, *other) {
                names.push(farm.name(*other))?;
            }
        }
        if !names.is_empty() {
            names.sort()?;
            return Ok(Hindrance::Names(names));
        }
        if self.are_pre_met(farm, variant) {
            Ok(Hindrance::Nothing)
        } else {
            Ok(Hindrance::PreDepends)
        }
    }
}
