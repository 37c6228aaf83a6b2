//! What the later paragraphs of the farm text are read against.

ghost use Rattle.std.specs.Prelude.{◌≡◌, IfOk};
ghost use Rattle.std.specs.Option.{option_map};
ghost use Rattle.deb_text.specs.Answers.{Gives, refusal_of as fault_of};
ghost use Rattle.farm_universe.specs.FarmText.{archive_at, head_at, land_of};
ghost use Rattle.farm_universe.specs.FarmView.{AreTableWords, IsLand, head_view, land_view};
ghost use Rattle.farm_universe.specs.SourceView.{source_view, IsSourceTable};
ghost use Rattle.farm_universe.specs.Told.{told};
ghost use Rattle.farm_universe.specs.TableView.{table_view, IsFit};
ghost use Rattle.farm_universe.specs.View.{refusal_of};

use crate::error::{FieldFault, told};
use crate::list::{empty_list, read_with_words};
use crate::package_table::PackageTable;
use crate::paragraph::Paragraph;
use crate::reduction::reduce_table;
use crate::source_table::SourceTable;
use deb_profile::ArchNames;
use deb_text::Fault;
use deb_text::files::FARM;
use std::alloc::{AllocError, Global};

/// What the first paragraph says.
#[derive(Drop)]
pub struct Head {
    pub architectures: ArchNames,
    pub initial: Vec<u64>,
}

/// The packages, their relations reduced; the sources; the names of the architecture; and a word of
/// the initial archive for each name of a package.
#[derive(Drop)]
pub struct Land {
    pub table: PackageTable,
    pub sources: SourceTable,
    pub architectures: ArchNames,
    pub initial: Vec<u64>,
}

/// Reads the initial archive.
fn read_archive(
    alloc: Global,
    table: &PackageTable,
    value: Option<&[u8]>,
) -> Result<Vec<u64>, FieldFault>
    requires fit { IsFit (table_view table.now) }
    ensures read { Gives refusal_of (λ words. words.items) result
        (archive_at (table_view table.now) (option_map (λ v. v.now) value.entry)) }
    ensures words { IfOk result (λ words. AreTableWords (table_view table.now) words.items) }
{
    match value {
        Some(text) => Ok(read_with_words(alloc, table, text)?.words),
        None => Ok(empty_list(alloc, table)?.words),
    }
}

/// Reads the first paragraph.
#[tactic(auto, unfolding(crate::specs::FarmText::head_at))]
fn read_head(alloc: Global, table: &PackageTable, paragraph: &Paragraph) -> Result<Head, FieldFault>
    requires { IsFit (table_view table.now) }
    ensures read { Gives refusal_of head_view result
        (head_at (table_view table.now) paragraph.now) }
    ensures words { IfOk result (λ head. AreTableWords (table_view table.now) head.initial.items) }
{
    let architectures = ArchNames::parse(alloc, paragraph.needed(b"Architecture-Names")?)?;
    let initial = read_archive(alloc, table, paragraph.field(b"Archive"))?;
    Ok(Head {
        architectures,
        initial,
    })
}

/// Reads the first paragraph, and tells its fault at its line.
///
/// # Errors
///
/// The first of 201 and 131 of `Architecture-Names` and those of [`read_with_words`] of `Archive`,
/// told at the paragraph's first line. [`Fault::MEMORY`] where memory is refused.
#[tactic(auto, using(crate::proofs::ToldLaws::gives_told))]
pub fn tell_head(alloc: Global, table: &PackageTable, paragraph: &Paragraph) -> Result<Head, Fault>
    requires { IsFit (table_view table.now) }
    ensures read { Gives fault_of head_view result
        (told FARM paragraph.now (head_at (table_view table.now) paragraph.now)) }
    ensures words { IfOk result (λ head. AreTableWords (table_view table.now) head.initial.items) }
{
    told(FARM, paragraph, read_head(alloc, table, paragraph))
}

/// Puts together what the later paragraphs are read against.
pub fn make_land(
    alloc: Global,
    table: PackageTable,
    sources: SourceTable,
    head: Head,
) -> Result<Land, AllocError>
    requires fit { IsFit (table_view table) }
    requires sources { IsSourceTable (source_view sources) }
    requires words { AreTableWords (table_view table) head.initial.items }
    ensures land { IfOk result (λ land. land_view land
        ≡ land_of (table_view table) (source_view sources) (head_view head)) }
    ensures kept { IfOk result (λ land. IsLand (land_view land)) }
{
    let table = reduce_table(alloc, table, &head.architectures)?;
    Ok(Land {
        table,
        sources,
        architectures: head.architectures,
        initial: head.initial,
    })
}
