//! Packages by name and version, each once.

use deb_version::Version;
use std::alloc::{AllocError, Global};
use std::cmp::Ordering;
use std::collections::BTreeMap;

/// A package under a version, the block of its paragraph, and the number of the recipe that gives
/// it, where one does.
#[derive(Drop)]
pub struct Variant {
    pub version: Version,
    pub number: u32,
    pub recipe: Option<u32>,
}

/// Variants by name, in the order of their names, each name's from the lowest version up.
#[derive(Drop)]
pub struct Variants {
    pub by_name: BTreeMap<Vec<u8>, Vec<Variant>>,
}

/// How many of the variants of a name are lower than a version.
fn lower(variants: &[Variant], version: &Version) -> usize {
    variants
        .iter()
        .filter(|variant| variant.version.compare(version) == Ordering::Less)
        .count()
}

fn has_version(variants: &[Variant], version: &Version) -> bool {
    variants.iter().any(|variant| variant.version.compare(version) == Ordering::Equal)
}

/// Puts a variant among those of its name, unless one of its version is there.
fn put(variants: &mut Vec<Variant>, variant: Variant) -> Result<(), AllocError> {
    if has_version(variants, &variant.version) {
        return Ok(());
    }
    let place = lower(variants, &variant.version);
    if place <= variants.len() {
        variants.insert(place, variant)?;
    }
    Ok(())
}

impl Variants {
    /// No variants.
    pub fn new(alloc: Global) -> Variants {
        Variants {
            by_name: BTreeMap::new(alloc),
        }
    }

    /// Tells whether there is a variant of a name and a version.
    pub fn has(&self, name: &[u8], version: &Version) -> bool {
        match self.by_name.get(name) {
            Some(variants) => has_version(variants, version),
            None => false,
        }
    }

    fn add_name(&mut self, alloc: Global, name: &[u8]) -> Result<(), AllocError> {
        if self.by_name.get(name).is_none() {
            let name = Vec::from_slice(alloc, name)?;
            self.by_name.insert(name, Vec::new(alloc))?;
        }
        Ok(())
    }

    /// Adds a variant of a name, unless one of its version is there.
    pub fn add(&mut self, alloc: Global, name: &[u8], variant: Variant) -> Result<(), AllocError> {
        self.add_name(alloc, name)?;
        match self.by_name.get_mut(name) {
            Some(variants) => put(variants, variant),
            None => Err(AllocError),
        }
    }

    /// How many names there are.
    pub fn names(&self) -> usize {
        self.by_name.len()
    }

    /// How many variants there are.
    pub fn count(&self) -> usize {
        let mut count: usize = 0;
        for variants in self.by_name.values() {
            count = count.saturating_add(variants.len());
        }
        count
    }

    /// The first name that has two variants.
    pub fn twice(&self) -> Option<&Vec<u8>> {
        for (name, variants) in &self.by_name {
            if variants.len() > 1 {
                return Some(name);
            }
        }
        None
    }
}
