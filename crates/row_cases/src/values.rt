//! What a universe keeps of its texts:
//!
//!     find NAME               variant NAME VERSION
//!     chroot NUMBER           architectures
//!     satisfies FIELD         wanted FIELD

ghost use Rattle.std.specs.Prelude.{◌<◌};
ghost use Rattle.farm_model.specs.Common.{names, IsKnown};

use crate::farm_answer::push_variant;
use crate::question::variant_of;
use case_files::TableRow;
use deb_relation::{Atom, Kind, Relations};
use deb_text::read_number;
use farm_universe::{Universe, Variant};
use std::alloc::{AllocError, Global};

/// What of a variant is looked at.
#[derive(Clone, Copy, PartialEq, Eq)]
pub enum Test {
    /// Whether it satisfies an alternative.
    Satisfies,
    /// Whether its version, of whatever name, stands in an alternative's relation.
    IsWanted,
}

fn passes(universe: &Universe, variant: Variant, atom: &Atom, test: Test) -> bool
    requires { IsKnown universe.now variant }
{
    match test {
        Test::Satisfies => universe.satisfies(variant, atom),
        Test::IsWanted => universe.is_wanted(variant, atom.relation()),
    }
}

/// Puts the variants of a name that pass behind a text.
fn push_passing(
    text: &mut String,
    universe: &Universe,
    name: u32,
    atom: &Atom,
    test: Test,
) -> Result<(), AllocError>
    requires { name < names universe.now }
{
    for bit in 0..universe.variants(name) {
        let variant = Variant { name, bit };
        if passes(universe, variant, atom, test) {
            let version = universe.version(variant).text();
            push_variant(text, universe.name_text(name), version)?;
        }
    }
    Ok(())
}

/// Puts the variants that pass for the alternatives of a field behind a text.
fn push_all_passing(
    text: &mut String,
    universe: &Universe,
    field: &Relations,
    test: Test,
) -> Result<(), AllocError> {
    for entry in field.entries() {
        for atom in entry.alternatives() {
            for name in 0..universe.names() {
                push_passing(text, universe, name, atom, test)?;
            }
        }
    }
    Ok(())
}

/// The variants that pass for the alternatives of a field, as `libc6 (= 2.36-1), gcc (= 14-1)`, or
/// `none`.
pub fn passing_text(
    alloc: Global,
    universe: &Universe,
    field: &[u8],
    test: Test,
) -> Result<Vec<u8>, AllocError> {
    let mut text = String::new(alloc);
    match Relations::parse(alloc, field, Kind::Need) {
        Ok(field) => push_all_passing(&mut text, universe, &field, test)?,
        Err(_) => text.push_str("no field")?,
    }
    if text.is_empty() {
        text.push_str("none")?;
    }
    Ok(text.into_bytes())
}

/// Tells whether a variant is in the initial archive.
fn is_initial(universe: &Universe, variant: Variant) -> bool {
    if variant.name >= universe.names() {
        return false;
    }
    match 1u64.checked_shl(variant.bit) {
        Some(bit) => universe.initial(variant.name) & bit != 0,
        None => false,
    }
}

/// A variant's size, and whether it is in the initial archive, as `archived size 2048`.
fn variant_text(alloc: Global, universe: &Universe, variant: Variant) -> Result<String, AllocError>
    requires { IsKnown universe.now variant }
{
    let size = universe.size(variant);
    if is_initial(universe, variant) {
        return format!(in alloc; "archived size {size}");
    }
    format!(in alloc; "size {size}")
}

/// A base chroot, as `main capacity 4096 packages 0`.
fn chroot_text(alloc: Global, universe: &Universe, number: u32) -> Result<String, AllocError> {
    if number >= universe.bases() {
        return String::from_str(alloc, "no such chroot");
    }
    let base = universe.base(number);
    let (name, count) = (base.name().escape_ascii(), base.packages().len());
    format!(in alloc; "{name} capacity {} packages {count}", base.capacity())
}

/// The number of a name, or `none`.
fn find_text(alloc: Global, universe: &Universe, name: &[u8]) -> Result<String, AllocError> {
    match universe.find(name) {
        Some(number) => format!(in alloc; "{number}"),
        None => String::from_str(alloc, "none"),
    }
}

/// Answers `find`, `variant`, `chroot` and `architectures`.
pub fn value_text(
    alloc: Global,
    universe: &Universe,
    row: TableRow,
) -> Result<Vec<u8>, AllocError> {
    let text = match row.question {
        "find" => find_text(alloc, universe, row.arg(0))?,
        "chroot" => {
            let number = read_number(row.arg(0)).unwrap_or(u64::MAX);
            chroot_text(alloc, universe, u32::try_from(number).unwrap_or(u32::MAX))?
        }
        "architectures" => {
            return Vec::from_slice(alloc, universe.arch_names().text());
        }
        _ => match variant_of(universe, row) {
            Some(variant) => variant_text(alloc, universe, variant)?,
            None => String::from_str(alloc, "no such variant")?,
        },
    };
    Ok(text.into_bytes())
}
