//! The relations of packages, reduced to the farm's architecture (Debian Policy 7.1).

ghost use Rattle.std.specs.Prelude.{◌≡◌, IfOk, map};
ghost use Rattle.deb_text.specs.Lists.{lists};
ghost use Rattle.farm_universe.specs.TableView.{table_view};
ghost use Rattle.farm_universe.specs.Land.{reduced_field, reduced_package, reduced_table};

use crate::binary::{Package, PackageRelations};
use crate::package_table::PackageTable;
use deb_profile::{ArchNames, ProfileSet, is_bare, reduce};
use deb_relation::Relations;
use std::alloc::{AllocError, Global};

/// Reduces a field where it stands. Most fields have nothing that could go.
#[tactic(auto, unfolding(crate::specs::Land::reduced_field))]
fn reduce_field(
    alloc: Global,
    field: &mut Relations,
    architectures: &ArchNames,
) -> Result<(), AllocError>
    ensures { IfOk result (λ _. field.new ≡ reduced_field architectures.now field.old) }
{
    if is_bare(field) {
        return Ok(());
    }
    *field = reduce(alloc, field, architectures, &ProfileSet::none(alloc))?;
    Ok(())
}

/// Reduces the fields of a package where they stand.
///
/// # Errors
///
/// Where memory is refused. Some of the fields are then reduced.
pub fn reduce_relations(
    alloc: Global,
    relations: &mut PackageRelations,
    architectures: &ArchNames,
) -> Result<(), AllocError>
    ensures { IfOk result (λ _. relations.new ≡ record {
      pre_depends = reduced_field architectures.now relations.old.pre_depends;
      depends = reduced_field architectures.now relations.old.depends;
      conflicts = reduced_field architectures.now relations.old.conflicts;
      breaks = reduced_field architectures.now relations.old.breaks;
      provides = reduced_field architectures.now relations.old.provides;
    }) }
{
    reduce_field(alloc, &mut relations.pre_depends, architectures)?;
    reduce_field(alloc, &mut relations.depends, architectures)?;
    reduce_field(alloc, &mut relations.conflicts, architectures)?;
    reduce_field(alloc, &mut relations.breaks, architectures)?;
    reduce_field(alloc, &mut relations.provides, architectures)
}

/// Reduces the packages of a name where they stand.
fn reduce_packages(
    alloc: Global,
    packages: &mut [Package],
    architectures: &ArchNames,
) -> Result<(), AllocError>
    ensures { IfOk result
        (λ _. packages.new ≡ map (reduced_package architectures.now) packages.old) }
{
    for binary in packages.iter_mut() {
        binary.reduce(alloc, architectures)?;
    }
    Ok(())
}

fn reduce_all(
    alloc: Global,
    packages: &mut [Vec<Package>],
    architectures: &ArchNames,
) -> Result<(), AllocError>
    ensures { IfOk result (λ _. lists packages.new
        ≡ map (map (reduced_package architectures.now)) (lists packages.old)) }
{
    for named in packages.iter_mut() {
        reduce_packages(alloc, named, architectures)?;
    }
    Ok(())
}

/// Reduces the relations of all packages of a table.
pub fn reduce_table(
    alloc: Global,
    table: PackageTable,
    architectures: &ArchNames,
) -> Result<PackageTable, AllocError>
    ensures { IfOk result
        (λ left. table_view left ≡ reduced_table architectures.now (table_view table)) }
{
    let mut left = table;
    reduce_all(alloc, &mut left.packages, architectures)?;
    Ok(left)
}
