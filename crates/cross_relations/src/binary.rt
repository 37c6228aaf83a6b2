//! A binary package of an index.

ghost use Rattle.std.specs.Prelude.{◌≡◌, false};
ghost use Rattle.cross_laws.specs.Binary.{is_same, side_of, standing};
ghost use Rattle.cross_relations.specs.Senses.{standing_of};

use crate::provides::Standing;
use cross_laws::types::{Architecture, MultiArch, Side};
use deb_relation::Relations;
use deb_version::{Version, VersionRef};
use std::marker::Model;

/// The relation fields of a package.
#[derive(Drop)]
pub struct Five {
    pub pre_depends: Relations,
    pub depends: Relations,
    pub conflicts: Relations,
    pub breaks: Relations,
    pub provides: Relations,
}

/// A binary, as its paragraph says, its relations with their qualifiers. A contract sees it as the
/// laws have it.
#[derive(Drop)]
pub struct Binary {
    name: Vec<u8>,
    architecture: Architecture,
    multi_arch: MultiArch,
    version: Version,
    five: Five,
}

impl Model for Binary {
    ghost use Rattle.std.specs.Prelude.{false};
    ghost use Rattle.cross_laws.specs.Binary as laws;

    ghost Value = { laws.Binary };

    ghost view = { λ p. record {
      name = p.name.items;
      architecture = p.architecture;
      multi_arch = p.multi_arch;
      rest = record {
        version = p.version;
        size = 0;
        essential = false;
        pre_depends = p.five.pre_depends;
        depends = p.five.depends;
        conflicts = p.five.conflicts;
        breaks = p.five.breaks;
        provides = p.five.provides;
      };
    } };
}

/// The side that an architecture counts for: `all` is the architecture on which is built.
pub fn side_of(architecture: Architecture) -> Side
    ensures { result ≡ side_of architecture }
{
    match architecture {
        Architecture::All => Side::Build,
        Architecture::Of(side) => side,
    }
}

/// Tells whether a value of Multi-Arch is `same`.
pub fn is_same(multi_arch: MultiArch) -> bool
    ensures { result ≡ is_same multi_arch }
{
    match multi_arch {
        MultiArch::No => false,
        MultiArch::Same => true,
        MultiArch::Foreign => false,
        MultiArch::Allowed => false,
    }
}

impl Binary {
    /// A package of these parts.
    pub fn new(
        name: Vec<u8>,
        architecture: Architecture,
        multi_arch: MultiArch,
        version: Version,
        five: Five,
    ) -> Binary
        ensures { result ≡ record {
          name = name.items;
          architecture = architecture;
          multi_arch = multi_arch;
          rest = record {
            version = version;
            size = 0;
            essential = false;
            pre_depends = five.pre_depends;
            depends = five.depends;
            conflicts = five.conflicts;
            breaks = five.breaks;
            provides = five.provides;
          };
        } }
    {
        Binary {
            name,
            architecture,
            multi_arch,
            version,
            five,
        }
    }

    /// The name of the package.
    pub fn name(&self) -> &[u8]
        ensures { result.now ≡ self.now.name }
    {
        &self.name
    }

    /// What its paragraph has as its architecture.
    pub fn architecture(&self) -> Architecture
        ensures { result ≡ self.now.architecture }
    {
        self.architecture
    }

    /// The side that it counts for.
    pub fn side(&self) -> Side
        ensures { result ≡ side_of self.now.architecture }
    {
        side_of(self.architecture)
    }

    /// The value of Multi-Arch.
    pub fn multi_arch(&self) -> MultiArch
        ensures { result ≡ self.now.multi_arch }
    {
        self.multi_arch
    }

    /// By what it counts for others.
    pub fn standing(&self) -> Standing
        ensures { standing_of result ≡ standing self.now }
    {
        Standing {
            side: self.side(),
            multi_arch: self.multi_arch,
        }
    }

    /// The version of the package.
    pub fn version(&self) -> VersionRef<'_>
        ensures { result ≡ self.now.rest.version }
    {
        self.version.view()
    }

    /// What the package needs before it is unpacked.
    pub fn pre_depends(&self) -> &Relations
        ensures { result.now ≡ self.now.rest.pre_depends }
    {
        &self.five.pre_depends
    }

    /// What the package needs.
    pub fn depends(&self) -> &Relations
        ensures { result.now ≡ self.now.rest.depends }
    {
        &self.five.depends
    }

    /// What may not be there with the package.
    pub fn conflicts(&self) -> &Relations
        ensures { result.now ≡ self.now.rest.conflicts }
    {
        &self.five.conflicts
    }

    /// What may not be configured with the package.
    pub fn breaks(&self) -> &Relations
        ensures { result.now ≡ self.now.rest.breaks }
    {
        &self.five.breaks
    }

    /// What the package provides.
    pub fn provides(&self) -> &Relations
        ensures { result.now ≡ self.now.rest.provides }
    {
        &self.five.provides
    }
}
