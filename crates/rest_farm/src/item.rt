//! Packages by name and version.

ghost use Rattle.std.specs.Prelude.{◌≡◌, ◌<◌, IfOk};
ghost use Rattle.std.specs.Str.{bytes_eq};
ghost use Rattle.farm_model.specs.Common.{names, IsKnown};
ghost use Rattle.leg_laws.specs.Named.{is_equal_item, item_of};
ghost use Rattle.rest_farm.specs.Items.{item_named};

use deb_version::Version;
use farm_universe::{Universe, Variant};
use std::alloc::{AllocError, Global};
use std::marker::Model;

/// A package in a version. Versions that Debian Policy 5.6.12 takes for equal are the same, however
/// they are written. A contract sees the name and the text of the version.
#[derive(Drop)]
pub struct Item {
    name: Vec<u8>,
    version: Version,
}

impl Model for Item {
    ghost use Rattle.leg_laws.specs.Named as named;

    ghost Value = { named.Item };

    ghost view = { λ item. record { name = item.name.items; version = item.version } };
}

fn is_same_name(name: &[u8], other: &[u8]) -> bool
    ensures { result ≡ bytes_eq name.now other.now }
{
    name == other
}

impl Item {
    /// The package of this name in this version.
    pub fn new(name: Vec<u8>, version: Version) -> Item
        ensures { result ≡ item_named name.items version }
    {
        Item { name, version }
    }

    /// The package and the version of a variant.
    #[tactic(auto, unfolding(leg_laws::specs::Named::item_of, farm_model::specs::Packages::facts))]
    pub fn of(alloc: Global, universe: &Universe, variant: Variant) -> Result<Item, AllocError>
        requires name { variant.name < names universe.now }
        requires known { IsKnown universe.now variant }
        ensures { IfOk result (λ item. item ≡ item_of universe.now variant) }
    {
        let name = Vec::from_slice(alloc, universe.name_text(variant.name))?;
        let version = universe.version(variant).clone()?;
        Ok(Item { name, version })
    }

    /// The name of the package.
    pub fn name(&self) -> &[u8]
        ensures { result.now ≡ self.now.name }
    {
        &self.name
    }

    /// The version.
    pub fn version(&self) -> &Version
        ensures { result.now ≡ self.now.version }
    {
        &self.version
    }

    /// Tells whether the item is of this name and version.
    #[tactic(auto, unfolding(leg_laws::specs::Named::is_equal_item))]
    pub fn is_of(&self, name: &[u8], version: &Version) -> bool
        ensures { result ≡ is_equal_item self.now (item_named name.now version.now) }
    {
        is_same_name(&self.name, name) && self.version.compare(version).is_eq()
    }

    /// Tells whether two items are the same.
    #[tactic(auto, unfolding(leg_laws::specs::Named::is_equal_item))]
    pub fn is_same(&self, other: &Item) -> bool
        ensures { result ≡ is_equal_item self.now other.now }
    {
        is_same_name(&self.name, &other.name) && self.version.compare(&other.version).is_eq()
    }
}

impl Clone for Item {
    ghost is_clone = { λ item copy. copy ≡ item };

    fn clone(&self) -> Result<Item, AllocError> {
        let name = self.name.clone()?;
        let version = self.version.clone()?;
        Ok(Item { name, version })
    }
}
