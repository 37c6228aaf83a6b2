//! Which Depends and Pre-Depends entries the variants of each name have, by the entries' numbers.

ghost use Rattle.std.specs.Prelude.{◌≡◌, ◌<◌, List, IfOk, OnOk, length};
ghost use Rattle.std.specs.List.{AllZip};
ghost use Rattle.deb_relation.specs.Relations.{Entry, Relations};
ghost use Rattle.farm_model.specs.Common.{names, variants, Universe};
ghost use Rattle.farm_model.specs.declared.types.Variant.{Variant};
ghost use Rattle.farm_model.specs.Chroot as chroot;
ghost use Rattle.sat_rows.specs.ByVariant.{AreValuesOfName};
ghost use Rattle.sat_rows.specs.Entries as listed;
ghost use Rattle.sat_rows.specs.Entries.{IsNumberOf, AreNumbers, no_numbers};
ghost use Rattle.sat_rows.specs.Fields.{AddsField};
ghost use Rattle.sat_rows.specs.Links.{IsNumbered, AreNumbered};
ghost use Rattle.sat_rows.specs.Served.{wanted, AreLong};

use crate::found::Found;
use crate::numbers::{NameNumbers, Numbers};
use crate::word::{variant_count, with_bit};
use farm_universe::Universe;
use std::alloc::{AllocError, Global};

/// Puts a bit under each number of an entry.
fn note_entries(found: &mut Found, bit: u32, numbers: &[usize]) -> Result<(), AllocError>
    requires { bit < 64 }
    ensures { (entries : List Entry) (field : Relations)
        → AllZip (IsNumberOf entries) field numbers.now
        → OnOk result (AddsField entries field bit found.old found.new) }
{
    for number in numbers {
        found.add(*number, with_bit(0, bit, true))?;
    }
    Ok(())
}

/// Puts the bit of a variant under the number of each of its entries.
fn note(found: &mut Found, bit: u32, numbers: &Numbers) -> Result<(), AllocError>
    requires { bit < 64 }
    ensures { (u : Universe) (entries : List Entry) (v : Variant)
        → AreNumbers u entries v numbers.now
        → OnOk result (AddsField entries (chroot.entries u v) bit found.old found.new) }
{
    note_entries(found, bit, numbers.all_depends())?;
    note_entries(found, bit, numbers.all_pre_depends())?;
    Ok(())
}

/// The entries of the variants of a name.
fn wanted_name(
    alloc: Global,
    universe: &Universe,
    name: u32,
    numbers: &NameNumbers,
) -> Result<Found, AllocError>
    requires { length numbers.now ≡ variants universe.now name }
    ensures { (entries : List Entry)
        → AreValuesOfName universe.now (AreNumbers universe.now entries) no_numbers name numbers.now
        → IfOk result (IsNumbered universe.now wanted entries name (variants universe.now name)) }
{
    let mut found = Found::with_room(alloc, numbers.entries())?;
    for bit in 0..variant_count(universe, name) {
        note(&mut found, bit, numbers.variant(bit))?;
    }
    Ok(found)
}

/// The entries of all variants, by name.
pub fn all_wanted(
    alloc: Global,
    universe: &Universe,
    numbers: &[NameNumbers],
) -> Result<Vec<Found>, AllocError>
    requires { AreLong universe.now numbers.now }
    ensures { (entries : List Entry) → listed.AreVariantNumbers universe.now entries numbers.now
        → IfOk result (λ lists. AreNumbered universe.now wanted entries (names universe.now)
        lists.items) }
{
    let mut lists = Vec::with_capacity(alloc, universe.names() as usize)?;
    for name in 0..universe.names() {
        lists.push(wanted_name(alloc, universe, name, &numbers[name as usize])?)?;
    }
    Ok(lists)
}
