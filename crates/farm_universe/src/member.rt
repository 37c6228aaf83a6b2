//! A variant of a base chroot, with what relations see of it.

ghost use Rattle.std.specs.Prelude.{◌≡◌};
ghost use Rattle.deb_relation.specs.Satisfaction.{is_its_own};
ghost use Rattle.farm_universe.specs.Among.{provides_at};
ghost use Rattle.farm_universe.specs.BaseText as base;
ghost use Rattle.farm_universe.specs.FarmView.{IsPlace};
ghost use Rattle.farm_universe.specs.TableView.{table_view, IsFit};

use crate::binary::{Package, PackageRelations};
use crate::package_table::{PackageTable, packages_at};
use deb_relation::{Atom, in_relation, provides_it};
use farm_model::Variant;
use item_index::Item;
use std::marker::Model;

/// A variant of a list, with what is known of it.
#[derive(Drop)]
pub struct Member<'a> {
    number: u32,
    name: &'a [u8],
    binary: &'a Package,
}

impl<'a> Model for Member<'a> {
    ghost use Rattle.farm_universe.specs.BaseText as base;

    ghost Value = { base.Member };

    ghost view = { λ m. record { number = m.number; name = m.name.now; binary = m.binary.now } };
}

impl<'a> Member<'a> {
    /// The variant of a table.
    pub fn of(table: &'a PackageTable, variant: Variant) -> Member<'a>
        requires fit { IsFit (table_view table.now) }
        requires place { IsPlace (table_view table.now) variant }
        ensures { result ≡ base.member_of (table_view table.now) variant }
    {
        Member {
            number: variant.name,
            name: &table.names[variant.name as usize],
            binary: &packages_at(table, variant.name as usize)[variant.bit as usize],
        }
    }

    /// The number of its name.
    pub fn number(&self) -> u32
        ensures { result ≡ self.now.number }
    {
        self.number
    }

    /// Its name.
    pub fn name(&self) -> &'a [u8]
        ensures { result.now ≡ self.now.name }
    {
        self.name
    }

    /// The disk space that it takes, in KiB.
    pub fn size(&self) -> u64
        ensures { result ≡ self.now.binary.size }
    {
        self.binary.size()
    }

    /// Its relation fields, reduced to the farm's architecture.
    pub fn relations(&self) -> &'a PackageRelations
        ensures { result.now ≡ record {
          pre_depends = self.now.binary.pre_depends;
          depends = self.now.binary.depends;
          conflicts = self.now.binary.conflicts;
          breaks = self.now.binary.breaks;
          provides = self.now.binary.provides;
        } }
    {
        self.binary.relations()
    }

    /// Tells whether it has the name of an alternative, and a version in its relation.
    pub fn is_named(&self, atom: &Atom) -> bool
        ensures { result ≡ is_its_own (base.member_facts self.now) atom.now }
    {
        self.name == atom.name() && in_relation(atom.relation(), &self.binary.version().view())
    }

    /// Tells whether what it provides at this place provides an alternative.
    pub fn provides_at(&self, item: &Item<usize>, atom: &Atom) -> bool
        ensures { result ≡ provides_at item.now self.now atom.now }
    {
        match item.of(&self.binary.relations().provides) {
            Some(provided) => provides_it(atom, provided),
            None => false,
        }
    }
}
