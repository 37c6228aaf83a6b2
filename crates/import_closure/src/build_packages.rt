//! The packages of a source that the indexes have.

use crate::{Given, PackageNames, Shelf};
use deb_version::Version;
use std::alloc::{AllocError, Global};
use std::cmp::Ordering;
use std::collections::BTreeSet;

/// The packages of the source of a name, all of which were read.
#[derive(Clone, Copy)]
pub struct MadePackages<'a> {
    pub shelf: &'a Shelf<'a>,
    pub names: &'a PackageNames,
    pub source: &'a [u8],
}

fn is_higher(version: &Version, other: Option<&Version>) -> bool {
    match other {
        Some(other) => version.compare(other) == Ordering::Greater,
        None => true,
    }
}

impl<'a> MadePackages<'a> {
    /// The package of a block, if it comes from the source.
    fn of_block(&self, number: u32) -> Option<&'a Given> {
        let given = self.shelf.given(number)?;
        if given.source.name.as_slice() == self.source {
            Some(given)
        } else {
            None
        }
    }

    /// The same of one version of the source.
    fn of_version(&self, number: u32, version: &Version) -> Option<&'a Given> {
        let given = self.of_block(number)?;
        if given.source.version.compare(version) == Ordering::Equal {
            Some(given)
        } else {
            None
        }
    }

    /// Tells whether there are packages of a version of the source.
    pub fn has(&self, version: &Version) -> bool {
        for number in self.names.made.listed(self.source) {
            if self.of_version(*number, version).is_some() {
                return true;
            }
        }
        false
    }

    /// The highest version of the source that there are packages of.
    pub fn highest(&self) -> Option<&'a Version> {
        let mut highest = None;
        for number in self.names.made.listed(self.source) {
            if let Some(given) = self.of_block(*number) {
                if is_higher(&given.source.version, highest) {
                    highest = Some(&given.source.version);
                }
            }
        }
        highest
    }

    /// The block of the package of a name that comes from a version of the source, in its highest
    /// version.
    pub fn find(&self, name: &[u8], version: &Version) -> Option<u32> {
        let mut found = None;
        let mut highest = None;
        for number in self.names.own.listed(name) {
            if let Some(given) = self.of_version(*number, version) {
                if is_higher(&given.version, highest) {
                    highest = Some(&given.version);
                    found = Some(*number);
                }
            }
        }
        found
    }

    /// The names of the packages that come from a version of the source.
    pub fn all_names(
        &self,
        alloc: Global,
        version: &Version,
    ) -> Result<BTreeSet<Vec<u8>>, AllocError> {
        let mut all = BTreeSet::new(alloc);
        for number in self.names.made.listed(self.source) {
            if let Some(given) = self.of_version(*number, version) {
                all.insert(Vec::from_slice(alloc, &given.name)?)?;
            }
        }
        Ok(all)
    }
}
