//! A base chroot.

ghost use Rattle.std.specs.Prelude.{◌≡◌};

use farm_model::Variant;
use std::marker::Model;

/// A base chroot, as it is when a lane begins.
#[derive(Drop)]
pub struct Base {
    name: Vec<u8>,
    capacity: u64,
    packages: Vec<Variant>,
}

impl Model for Base {
    ghost use Rattle.farm_model.specs.Universe as universe;

    ghost Value = { universe.Base };

    ghost view = { λ base. record {
      name = base.name.items;
      capacity = base.capacity;
      packages = base.packages.items;
    } };
}

impl Base {
    /// A base chroot of this name, of a capacity in KiB, with these variants configured.
    pub(crate) fn new(name: Vec<u8>, capacity: u64, packages: Vec<Variant>) -> Base
        ensures { result ≡ record {
          name = name.items;
          capacity = capacity;
          packages = packages.items;
        } }
    {
        Base {
            name,
            capacity,
            packages,
        }
    }

    /// The name.
    pub fn name(&self) -> &[u8]
        ensures { result.now ≡ self.now.name }
    {
        &self.name
    }

    /// The disk space that it can hold, in KiB.
    pub fn capacity(&self) -> u64
        ensures { result ≡ self.now.capacity }
    {
        self.capacity
    }

    /// The variants that are configured in it.
    pub fn packages(&self) -> &[Variant]
        ensures { result.now ≡ self.now.packages }
    {
        &self.packages
    }
}
