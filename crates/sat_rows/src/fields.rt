//! The entries of a field of all variants, by their numbers among the distinct ones.

ghost use Rattle.std.specs.Prelude.{◌<◌, IfOk, OnOk};
ghost use Rattle.farm_model.specs.Packages.{names, variants};
ghost use Rattle.sat_rows.specs.Entries.{IsGrown};
ghost use Rattle.sat_rows.specs.Links.{IsNumbered, AreNumbered};
ghost use Rattle.sat_rows.specs.Fields.{AddsField};

use crate::entries::Entries;
use crate::found::Found;
use crate::index::Field;
use crate::word::{variant_count, with_bit};
use deb_relation::Relations;
use farm_universe::{Universe, Variant};
use std::alloc::{AllocError, Global};

impl<'a> Entries<'a> {
    /// Puts a bit under the number of each entry of a field.
    fn note_field(
        &mut self,
        found: &mut Found,
        bit: u32,
        field: &'a Relations,
    ) -> Result<(), AllocError>
        requires { bit < 64 }
        ensures grown { OnOk result (IsGrown self.old self.new) }
        ensures noted { OnOk result (AddsField self.new field.now bit found.old found.new) }
    {
        for entry in field.entries() {
            let number = self.number(entry.alternatives())?;
            found.add(number, with_bit(0, bit, true))?;
        }
        Ok(())
    }

    /// The entries of a field of the variants of a name.
    fn noted_name<F: Field>(
        &mut self,
        alloc: Global,
        universe: &'a Universe,
        field: &F,
        name: u32,
    ) -> Result<Found, AllocError>
        requires { name < names universe.now }
        ensures grown { OnOk result (IsGrown self.old self.new) }
        ensures noted { IfOk result
            (IsNumbered universe.now F.field self.new name (variants universe.now name)) }
    {
        let mut found = Found::new(alloc);
        for bit in 0..variant_count(universe, name) {
            self.note_field(&mut found, bit, field.of(universe, Variant { name, bit }))?;
        }
        Ok(found)
    }

    /// The entries of a field of all variants, by name.
    pub fn noted<F: Field>(
        &mut self,
        alloc: Global,
        universe: &'a Universe,
        field: &F,
    ) -> Result<Vec<Found>, AllocError>
        ensures grown { OnOk result (IsGrown self.old self.new) }
        ensures noted { IfOk result
            (λ lists. AreNumbered universe.now F.field self.new (names universe.now) lists.items) }
    {
        let mut lists = Vec::new(alloc);
        for name in 0..universe.names() {
            lists.push(self.noted_name(alloc, universe, field, name)?)?;
        }
        Ok(lists)
    }
}
