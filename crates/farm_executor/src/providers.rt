//! Which names provide a name, so that a wait looks at few words of the archive.

ghost use Rattle.std.specs.Prelude.{◌<◌};
ghost use Rattle.farm_model.specs.Packages.{names};

use farm_universe::{Universe, Variant};
use item_index::ItemIndex;
use std::alloc::{AllocError, Global};

/// The names of the packages that provide something, under what they provide.
#[derive(Drop)]
pub struct Providers {
    names: ItemIndex<u32>,
}

/// Lists what the variants of a name provide.
fn add_name(index: &mut ItemIndex<u32>, universe: &Universe, name: u32) -> Result<(), AllocError>
    requires { name < names universe.now }
{
    for bit in 0..universe.variants(name) {
        let relations = universe.relations(Variant { name, bit });
        index.add_field(name, &relations.provides)?;
    }
    Ok(())
}

impl Providers {
    /// Those of a universe.
    pub fn of(alloc: Global, universe: &Universe) -> Result<Providers, AllocError> {
        let mut names = ItemIndex::new(alloc, universe.names() as usize)?;
        for name in 0..universe.names() {
            add_name(&mut names, universe, name)?;
        }
        Ok(Providers { names })
    }

    /// How many names are listed with those that provide a name.
    pub fn count(&self, text: &[u8]) -> usize {
        self.names.listed(text).len()
    }

    /// One of these names, by its number among them.
    pub fn name(&self, text: &[u8], number: usize) -> Option<u32> {
        let item = self.names.listed(text).get(number)?;
        Some(item.owner)
    }
}
