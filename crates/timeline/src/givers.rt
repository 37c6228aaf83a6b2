//! What enters the archive, found by name.

use deb_relation::{Atom, Relations};
use farm_model::Variant;
use farm_universe::Universe;
use item_index::{Item, ItemIndex};
use plan_reader::name_of;
use std::alloc::{AllocError, Global};

/// A variant that enters the archive, and the number of what gives it; none for one that is there
/// from the start.
#[derive(Clone, Copy)]
pub struct Giver {
    pub variant: Variant,
    pub number: Option<usize>,
}

/// What enters the archive, under its names and under those that it provides, in the order in which
/// it was added.
#[derive(Drop)]
pub struct Givers {
    listed: ItemIndex<Giver>,
}

/// What a variant provides; nothing for one that the universe does not have.
fn provides(universe: &Universe, variant: Variant) -> Option<&Relations> {
    if variant.name < universe.names() && variant.bit < universe.variants(variant.name) {
        Some(&universe.relations(variant).provides)
    } else {
        None
    }
}

impl Giver {
    /// Tells whether its variant satisfies an alternative.
    pub fn satisfies(self, universe: &Universe, atom: &Atom) -> bool {
        let variant = self.variant;
        if variant.name < universe.names() && variant.bit < universe.variants(variant.name) {
            universe.satisfies(variant, atom)
        } else {
            false
        }
    }
}

impl Givers {
    /// Nothing that enters the archive.
    pub fn new(alloc: Global, universe: &Universe) -> Result<Givers, AllocError> {
        let listed = ItemIndex::new(alloc, universe.names() as usize)?;
        Ok(Givers { listed })
    }

    /// Adds one more, behind the others.
    pub fn add(&mut self, universe: &Universe, giver: Giver) -> Result<(), AllocError> {
        let item = Item {
            owner: giver,
            entry: 0,
            alternative: 0,
        };
        self.listed
            .add(name_of(universe, giver.variant.name), item)?;
        match provides(universe, giver.variant) {
            Some(provides) => self.listed.add_field(giver, provides),
            None => Ok(()),
        }
    }

    /// Those that may satisfy an alternative, and perhaps others.
    pub fn listed(&self, atom: &Atom) -> &[Item<Giver>] {
        self.listed.listed(atom.name())
    }
}
