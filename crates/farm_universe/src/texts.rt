//! The three texts, each as a whole.

ghost use Rattle.std.specs.Prelude.{IfErr, IfOk};
ghost use Rattle.deb_text.specs.Answers.{Gives, refusal_of as fault_of};
ghost use Rattle.farm_universe.specs.Before.{Leaves, before_text, refused_for};
ghost use Rattle.farm_universe.specs.FarmView.{IsLand, IsYard, farm_view, land_view};
ghost use Rattle.farm_universe.specs.SourceView.{source_view, IsSourceTable};
ghost use Rattle.farm_universe.specs.TableView.{table_view, IsFit};
ghost use Rattle.farm_universe.specs.UniverseText.{paragraphs_in, table_at, sources_at, farm_at};

use crate::farm::{Farm, read_farm, read_farm_side_by_side};
use crate::package_table::{PackageTable, read_table, read_table_side_by_side};
use crate::refused::Refused;
use crate::side_by_side::BYTES_FOR_THREADS;
use crate::source_table::{SourceTable, read_sources};
use deb_stanza::Paragraphs;
use deb_text::Fault;
use deb_text::files::{FARM, PACKAGES, SOURCES};
use std::alloc::Global;
use std::thread::{Threads, join};

#[tactic(auto, unfolding(crate::specs::UniverseText::paragraphs_in))]
fn read_paragraphs(alloc: Global, file: u8, text: &[u8]) -> Result<Paragraphs, Fault>
    ensures { Gives fault_of (λ paragraphs. paragraphs) result (paragraphs_in file text.now) }
{
    match Paragraphs::read(alloc, text) {
        Ok(paragraphs) => Ok(paragraphs),
        Err(fault) => Err(fault.in_file(file)),
    }
}

/// Reads the packages text.
///
/// # Errors
///
/// 105 at line 0, or 101 to 104 at the faulty line; else the first fault of a paragraph, told at
/// its first line. [`Fault::MEMORY`] where memory is refused.
#[tactic(auto, unfolding(crate::specs::UniverseText::table_at))]
pub fn read_packages_text(alloc: Global, packages: &[u8]) -> Result<PackageTable, Fault>
    ensures read { Gives fault_of table_view result (table_at packages.now) }
    ensures fit { IfOk result (λ table. IsFit (table_view table)) }
{
    let paragraphs = read_paragraphs(alloc, PACKAGES, packages)?;
    read_table(alloc, &paragraphs)
}

/// Reads the packages text as [`read_packages_text`] does, by as many threads as there are
/// processors.
///
/// # Errors
///
/// Those of [`read_packages_text`].
#[tactic(auto, unfolding(crate::specs::UniverseText::table_at))]
fn read_packages_text_side_by_side(
    rt: &(impl Threads + Sync),
    alloc: Global,
    packages: &[u8],
) -> Result<PackageTable, Fault>
    ensures read { Gives fault_of table_view result (table_at packages.now) }
    ensures fit { IfOk result (λ table. IsFit (table_view table)) }
{
    let paragraphs = read_paragraphs(alloc, PACKAGES, packages)?;
    read_table_side_by_side(rt, alloc, &paragraphs)
}

/// Reads the sources text.
///
/// # Errors
///
/// 105 at line 0, or 101 to 104 at the faulty line; else the first fault of a paragraph, told at
/// its first line. [`Fault::MEMORY`] where memory is refused.
#[tactic(auto, unfolding(crate::specs::UniverseText::sources_at))]
pub fn read_sources_text(alloc: Global, sources: &[u8]) -> Result<SourceTable, Fault>
    ensures read { Gives fault_of source_view result (sources_at sources.now) }
    ensures fit { IfOk result (λ table. IsSourceTable (source_view table)) }
{
    let paragraphs = read_paragraphs(alloc, SOURCES, sources)?;
    read_sources(alloc, &paragraphs)
}

/// Reads the farm text.
///
/// # Errors
///
/// 105 at line 0, or 101 to 104 at the faulty line; else those of [`read_farm`].
#[tactic(auto, unfolding(crate::specs::UniverseText::farm_at))]
pub fn read_farm_text(
    alloc: Global,
    table: PackageTable,
    sources: SourceTable,
    farm: &[u8],
) -> Result<Farm, Refused>
    requires fit { IsFit (table_view table) }
    requires sources { IsSourceTable (source_view sources) }
    ensures read { Gives refused_for farm_view result
        (farm_at (table_view table) (source_view sources) farm.now) }
    ensures land { IfOk result (λ farm. IsLand (land_view farm.land)) }
    ensures yard { IfOk result (λ farm. IsYard (land_view farm.land) farm.yard) }
    ensures before { IfErr result (λ refused. Leaves refused
        (before_text (table_view table) (source_view sources) farm.now)) }
{
    let paragraphs = read_paragraphs(alloc, FARM, farm)?;
    read_farm(alloc, table, sources, &paragraphs)
}

/// Reads the packages text by several threads, and the sources text by one beside them, unless both
/// together are short: neither asks for the other. What is wrong with each is told as
/// [`read_packages_text`] and [`read_sources_text`] tell it.
pub fn read_packages_beside_sources(
    rt: &(impl Threads + Sync),
    alloc: Global,
    packages: &[u8],
    sources: &[u8],
) -> (Result<PackageTable, Fault>, Result<SourceTable, Fault>)
    ensures packages { Gives fault_of table_view result.0 (table_at packages.now) }
    ensures fit { IfOk result.0 (λ table. IsFit (table_view table)) }
    ensures sources { Gives fault_of source_view result.1 (sources_at sources.now) }
    ensures sources_fit { IfOk result.1 (λ table. IsSourceTable (source_view table)) }
{
    if packages.len().saturating_add(sources.len()) < BYTES_FOR_THREADS {
        return (
            read_packages_text_side_by_side(rt, alloc, packages),
            read_sources_text(alloc, sources),
        );
    }
    join(
        rt,
        || -> Result<PackageTable, Fault>
            ensures read { Gives fault_of table_view result (table_at packages.entry.now) }
            ensures fit { IfOk result (λ table. IsFit (table_view table)) }
        { read_packages_text_side_by_side(rt, alloc, packages) },
        move || -> Result<SourceTable, Fault>
            ensures read { Gives fault_of source_view result (sources_at sources.entry.now) }
            ensures fit { IfOk result (λ table. IsSourceTable (source_view table)) }
        { read_sources_text(alloc, sources) },
    )
}

/// Reads the farm text as [`read_farm_text`] does, by as many threads as there are processors.
///
/// # Errors
///
/// Those of [`read_farm_text`].
#[tactic(auto, unfolding(crate::specs::UniverseText::farm_at))]
pub fn read_farm_text_side_by_side(
    rt: &(impl Threads + Sync),
    alloc: Global,
    table: PackageTable,
    sources: SourceTable,
    farm: &[u8],
) -> Result<Farm, Refused>
    requires fit { IsFit (table_view table) }
    requires sources { IsSourceTable (source_view sources) }
    ensures read { Gives refused_for farm_view result
        (farm_at (table_view table) (source_view sources) farm.now) }
    ensures land { IfOk result (λ farm. IsLand (land_view farm.land)) }
    ensures yard { IfOk result (λ farm. IsYard (land_view farm.land) farm.yard) }
    ensures before { IfErr result (λ refused. Leaves refused
        (before_text (table_view table) (source_view sources) farm.now)) }
{
    let paragraphs = read_paragraphs(alloc, FARM, farm)?;
    read_farm_side_by_side(rt, alloc, table, sources, &paragraphs)
}
