//! Who satisfies alternatives, found by the names in them.

use crate::found::Found;
use crate::looks::{relations_of, variant_count};
use deb_relation::{Atom, provides_it};
use farm_universe::{Universe, Variant};
use item_index::{Item, ItemIndex};
use std::alloc::{AllocError, Global};

/// A universe, and its Provides by the names in them.
#[derive(Clone, Copy)]
pub(crate) struct Ground<'a> {
    pub(crate) universe: &'a Universe,
    pub(crate) providers: &'a ItemIndex<Variant>,
}

/// The Provides of a universe of these variants.
pub(crate) fn providers_of(
    alloc: Global,
    universe: &Universe,
    all: &[Variant],
) -> Result<ItemIndex<Variant>, AllocError> {
    let mut providers = ItemIndex::new(alloc, all.len())?;
    for variant in all {
        match relations_of(universe, *variant) {
            Some(relations) => providers.add_field(*variant, &relations.provides)?,
            None => {}
        }
    }
    Ok(providers)
}

/// Tells whether an item of a Provides field provides an alternative.
fn is_provided(universe: &Universe, item: &Item<Variant>, atom: &Atom) -> bool {
    let Some(relations) = relations_of(universe, item.owner) else {
        return false;
    };
    match item.of(&relations.provides) {
        Some(provided) => provides_it(atom, provided),
        None => false,
    }
}

impl Ground<'_> {
    /// Finds those of the alternative's own name, the highest version first.
    fn find_own(self, found: &mut Found, atom: &Atom) -> Result<(), AllocError> {
        let Some(name) = self.universe.find(atom.name()) else {
            return Ok(());
        };
        let count = variant_count(self.universe, name);
        for passed in 0..count {
            let variant = Variant {
                name,
                bit: count - 1 - passed,
            };
            if self.universe.is_wanted(variant, atom.relation()) {
                found.push(variant)?;
            }
        }
        Ok(())
    }

    /// Finds those that provide an alternative.
    fn find_providers(self, found: &mut Found, atom: &Atom) -> Result<(), AllocError> {
        for item in self.providers.listed(atom.name()) {
            if is_provided(self.universe, item, atom) {
                found.push(item.owner)?;
            }
        }
        Ok(())
    }

    /// Finds all that satisfy an alternative (Debian Policy 7.1 and 7.5): none where it has a
    /// qualifier.
    ///
    /// # Errors
    ///
    /// [`AllocError`] where memory is refused, or there are too many.
    pub(crate) fn find_one(self, found: &mut Found, atom: &Atom) -> Result<(), AllocError> {
        if atom.qualifier().is_some() {
            return Ok(());
        }
        self.find_own(found, atom)?;
        self.find_providers(found, atom)
    }

    /// Finds all that satisfy one of some alternatives, those of each before those of the next.
    ///
    /// # Errors
    ///
    /// [`AllocError`] where memory is refused, or there are too many.
    pub(crate) fn find(self, found: &mut Found, atoms: &[Atom]) -> Result<(), AllocError> {
        for atom in atoms {
            self.find_one(found, atom)?;
        }
        Ok(())
    }
}
