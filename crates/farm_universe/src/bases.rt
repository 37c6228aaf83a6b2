//! The base chroots of the farm text.

ghost use Rattle.std.specs.Prelude.{◌≡◌, ◌<◌, IfOk, OnOk, length, All};
ghost use Rattle.std.specs.List.{list_any};
ghost use Rattle.std.specs.Option.{option_map};
ghost use Rattle.std.specs.Str.{bytes_eq};
ghost use Rattle.deb_text.specs.Answers.{Gives};
ghost use Rattle.farm_universe.specs.BaseText.{base_name, packages_at, held_at, base_at};
ghost use Rattle.farm_universe.specs.FarmText.{bases_with};
ghost use Rattle.farm_universe.specs.FarmView.{AreBases, IsBase, IsHeldRead, IsPlace};
ghost use Rattle.farm_universe.specs.TableView.{table_view, IsFit};
ghost use Rattle.farm_universe.specs.View.{refusal_of};

use crate::base::Base;
use crate::error::FieldFault;
use crate::fields::{read_name, read_number_up_to};
use crate::limits::{MOST_BASES, MOST_CAPACITY};
use crate::list::read_list;
use crate::package_table::PackageTable;
use crate::paragraph::Paragraph;
use crate::settled::is_settled_base;
use farm_model::Variant;
use std::alloc::Global;

/// What a base chroot holds: its capacity in KiB, and the variants that are configured in it.
#[derive(Drop)]
pub struct BaseHeld {
    pub capacity: u64,
    pub packages: Vec<Variant>,
}

/// What a paragraph says of what a base chroot holds, or its first fault there.
pub type HeldRead = Result<BaseHeld, FieldFault>;

fn is_given(bases: &[Base], name: &[u8]) -> bool
    ensures { result ≡ list_any (λ base. bytes_eq name.now base.name) bases.now }
{
    bases.iter().any(|base| name == base.name())
}

/// Reads a name that no base chroot has yet.
fn read_base_name(alloc: Global, bases: &[Base], given: &[u8]) -> Result<Vec<u8>, FieldFault>
    ensures { Gives refusal_of (λ name. name.items) result (base_name bases.now given.now) }
{
    let name = read_name(alloc, given)?;
    if is_given(bases, &name) {
        return Err(FieldFault::Twice);
    }
    Ok(name)
}

fn read_packages(
    alloc: Global,
    table: &PackageTable,
    value: Option<&[u8]>,
) -> Result<Vec<Variant>, FieldFault>
    requires { IsFit (table_view table.now) }
    ensures read { Gives refusal_of (λ vs. vs.items) result
        (packages_at (table_view table.now) (option_map (λ v. v.now) value.entry)) }
    ensures known { IfOk result (λ vs. All (IsPlace (table_view table.now)) vs.items) }
{
    match value {
        Some(text) => read_list(alloc, table, text),
        None => Ok(Vec::new(alloc)),
    }
}

/// Reads what a base chroot holds, whatever base chroots stand before it.
///
/// # Errors
///
/// The first of 201 and 202 of `Capacity`, those of [`read_list`] of `Packages`, and 209.
/// [`FieldFault::Memory`] where memory is refused.
#[tactic(auto, unfolding(crate::specs::BaseText::held_at))]
pub fn read_held(alloc: Global, table: &PackageTable, paragraph: &Paragraph) -> HeldRead
    requires { IsFit (table_view table.now) }
    ensures { IsHeldRead (table_view table.now) paragraph.now result }
{
    let capacity = read_number_up_to(MOST_CAPACITY, paragraph.needed(b"Capacity")?)?;
    let packages = read_packages(alloc, table, paragraph.field(b"Packages"))?;
    if !is_settled_base(alloc, table, capacity, &packages)? {
        return Err(FieldFault::UnsettledBase);
    }
    Ok(BaseHeld { capacity, packages })
}

/// Reads a base chroot behind others, of which this was read.
#[tactic(auto, unfolding(crate::specs::BaseText::base_at))]
fn read_base(
    alloc: Global,
    table: &PackageTable,
    bases: &[Base],
    paragraph: &Paragraph,
    held: HeldRead,
) -> Result<Base, FieldFault>
    requires { IsHeldRead (table_view table.now) paragraph.now held }
    ensures read { Gives refusal_of (λ base. base) result
        (base_at (table_view table.now) bases.now paragraph.now) }
    ensures base { IfOk result (IsBase (table_view table.now)) }
    ensures room { OnOk result (length bases.now < MOST_BASES) }
{
    let name = read_base_name(alloc, bases, paragraph.needed(b"Chroot")?)?;
    let BaseHeld { capacity, packages } = held?;
    if bases.len() >= MOST_BASES {
        return Err(FieldFault::OverLimit);
    }
    Ok(Base::new(name, capacity, packages))
}

/// Goes on by a paragraph without the field Recipe, of which this was read.
///
/// # Errors
///
/// The first of 201, 121 and 203 of `Chroot`, those of [`read_held`], and 210.
/// [`FieldFault::Memory`] where memory is refused.
#[tactic(auto, unfolding(crate::specs::FarmText::bases_with))]
pub fn add_base(
    alloc: Global,
    table: &PackageTable,
    bases: &mut Vec<Base>,
    paragraph: &Paragraph,
    held: HeldRead,
) -> Result<(), FieldFault>
    requires held { IsHeldRead (table_view table.now) paragraph.now held }
    requires bases { AreBases (table_view table.now) bases.old.items }
    ensures read { Gives refusal_of (λ _. bases.new.items) result
        (bases_with (table_view table.now) bases.old.items paragraph.now) }
    ensures bases { OnOk result (AreBases (table_view table.now) bases.new.items) }
{
    let base = read_base(alloc, table, bases, paragraph, held)?;
    bases.push(base)?;
    Ok(())
}
