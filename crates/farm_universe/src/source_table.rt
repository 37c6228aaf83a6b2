//! The sources of the second text, by the number of their name.

ghost use Rattle.std.specs.Prelude.{◌≡◌, ◌<◌, OnOk, IfOk, IfErr, None, length, [], get_or, set};
ghost use Rattle.std.specs.Option.{option_map};
ghost use Rattle.std.specs.List.{list_any};
ghost use Rattle.std.specs.Str.{bytes_eq};
ghost use Rattle.deb_text.specs.Common.{Gives, refusal_of as fault_of, place_in, lists};
ghost use Rattle.farm_universe.specs.Keyed.{group_at};
ghost use Rattle.farm_universe.specs.SourcesText.{is_of_version, source_at, sources_of, find_source};
ghost use Rattle.farm_universe.specs.SourceSteps.{behind_others, put_source, source_code, add_source, add_source_paragraph, tell_source};
ghost use Rattle.farm_universe.specs.SourceView.{listed_source_view, source_view, IsSourceTable, IsSourcePlace};
ghost use Rattle.farm_universe.specs.View.{code_of, refusal_of};

use crate::error::{FieldFault, told};
use crate::keyed::{group_at, put_new};
use crate::limits::MOST_SOURCES;
use crate::package_table::place_of;
use crate::paragraph::Paragraph;
use crate::sources::{ListedSource, Source, read_source};
use crate::steps::{ParagraphStep, read_steps};
use deb_stanza::Paragraphs;
use deb_text::Fault;
use deb_text::files::SOURCES;
use deb_version::VersionRef;
use indexmap::IndexSet;
use std::alloc::Global;

/// The names in the order of their first appearance, for each its sources, and how many sources
/// there are.
#[derive(Drop)]
pub struct SourceTable {
    pub names: IndexSet<Vec<u8>>,
    pub sources: Vec<Vec<Source>>,
    pub count: usize,
}

/// Tells whether a source has this version.
fn is_of_version(version: &VersionRef, source: &Source) -> bool
    ensures { result ≡ is_of_version version.now source.now }
{
    version.compare(&source.version.view()).is_eq()
}

/// Tells whether one of the sources has this version.
fn is_given(given: &[Source], version: &VersionRef) -> bool
    ensures { result ≡ list_any (is_of_version version.now) given.now }
{
    given.iter().any(|source| is_of_version(version, source))
}

#[tactic(auto, unfolding(crate::specs::SourceSteps::source_code))]
fn fault_at(table: &SourceTable, at: Option<usize>, listed: &ListedSource) -> Option<FieldFault>
    requires { IsSourcePlace (source_view table.now) at }
    ensures { option_map code_of result
        ≡ source_code (source_view table.now) at (listed_source_view listed.now) }
{
    if is_given(group_at(&table.sources, at), &listed.source.version.view()) {
        return Some(FieldFault::Twice);
    }
    if table.count >= MOST_SOURCES {
        return Some(FieldFault::OverLimit);
    }
    None
}

/// Puts a source to those of a name that is there.
fn put_there(table: &mut SourceTable, at: usize, source: Source) -> Result<(), FieldFault>
    requires { at < length (source_view table.old).sources }
    ensures names { table.new.names ≡ table.old.names }
    ensures sources { OnOk result (lists table.new.sources.items
        ≡ set (lists table.old.sources.items) at
        (behind_others source (get_or (lists table.old.sources.items) at []))) }
    ensures count { table.new.count ≡ table.old.count }
    ensures memory { IfErr result (λ e. refusal_of e ≡ None) }
{
    table.sources[at].push(source)?;
    Ok(())
}

/// Puts a source of the name with this number, or of a new name.
fn put_at(
    alloc: Global,
    table: &mut SourceTable,
    at: Option<usize>,
    listed: ListedSource,
) -> Result<(), FieldFault>
    requires at { at ≡ place_in bytes_eq (lists table.old.names.keys) listed.name.items }
    requires within { IsSourcePlace (source_view table.old) at }
    requires room { table.old.count < MOST_SOURCES }
    ensures put { OnOk result
        (source_view table.new
        ≡ put_source (source_view table.old) at (listed_source_view listed)) }
    ensures memory { IfErr result (λ e. refusal_of e ≡ None) }
{
    table.count += 1;
    match at {
        Some(i) => put_there(table, i, listed.source),
        None => {
            let ListedSource { name, source } = listed;
            put_new(alloc, &mut table.names, &mut table.sources, name, source)
        }
    }
}

/// Goes on by a source.
#[tactic(auto, unfolding(crate::specs::SourceSteps::add_source))]
fn add(alloc: Global, table: &mut SourceTable, listed: ListedSource) -> Result<(), FieldFault>
    requires { IsSourceTable (source_view table.old) }
    ensures read { Gives refusal_of (λ _. source_view table.new) result
        (add_source (source_view table.old) (listed_source_view listed)) }
    ensures fit { OnOk result (IsSourceTable (source_view table.new)) }
{
    let at = place_of(&table.names, &listed.name);
    if let Some(fault) = fault_at(table, at, &listed) {
        return Err(fault);
    }
    put_at(alloc, table, at, listed)
}

/// Goes on by a paragraph, of which this was read.
#[tactic(auto, unfolding(crate::specs::SourceSteps::add_source_paragraph))]
fn add_paragraph(
    alloc: Global,
    table: &mut SourceTable,
    paragraph: &Paragraph,
    read: Result<ListedSource, FieldFault>,
) -> Result<(), FieldFault>
    requires fit { IsSourceTable (source_view table.old) }
    requires read { Gives refusal_of listed_source_view read (source_at paragraph.now) }
    ensures read { Gives refusal_of (λ _. source_view table.new) result
        (add_source_paragraph (source_view table.old) paragraph.now) }
    ensures fit { OnOk result (IsSourceTable (source_view table.new)) }
{
    add(alloc, table, read?)
}

/// Goes on by a paragraph, and tells its fault at its line.
#[derive(Drop)]
struct SourceStep;

impl ParagraphStep for SourceStep {
    ghost use Rattle.farm_universe.specs.SourcesText as text;

    type SoFar = SourceTable;

    type Part = Result<ListedSource, FieldFault>;

    ghost Said = { text.SourceTable };

    ghost said = { source_view };

    ghost is_part = { λ _ p read. Gives refusal_of listed_source_view read (text.source_at p) };

    ghost fits = { λ _ table. IsSourceTable (source_view table) };

    ghost step = { λ _. tell_source };

    fn read(&self, alloc: Global, paragraph: &Paragraph) -> Result<ListedSource, FieldFault> {
        read_source(alloc, paragraph)
    }

    #[tactic(auto, using(crate::proofs::ToldLaws::gives_told))]
    fn take(
        &self,
        alloc: Global,
        table: &mut SourceTable,
        paragraph: &Paragraph,
        read: Result<ListedSource, FieldFault>,
    ) -> Result<(), Fault> {
        told(
            SOURCES,
            paragraph,
            add_paragraph(alloc, table, paragraph, read),
        )
    }
}

/// Reads the paragraphs of the sources text.
///
/// # Errors
///
/// The first fault of a paragraph, told at its first line: those of [`read_source`], then 203 and
/// 210. [`Fault::MEMORY`] where memory is refused.
pub fn read_sources(alloc: Global, paragraphs: &Paragraphs) -> Result<SourceTable, Fault>
    ensures read { Gives fault_of source_view result (sources_of paragraphs.now) }
    ensures fit { IfOk result (λ table. IsSourceTable (source_view table)) }
{
    let empty = SourceTable {
        names: IndexSet::new(alloc),
        sources: Vec::new(alloc),
        count: 0,
    };
    read_steps(alloc, &SourceStep, empty, paragraphs, 0)
}

/// The source of a name with this version.
#[tactic(auto, unfolding(crate::specs::SourcesText::find_source))]
pub fn find_source<'a>(
    table: &'a SourceTable,
    name: &[u8],
    version: &VersionRef,
) -> Option<&'a Source>
    requires { IsSourceTable (source_view table.now) }
    ensures { option_map (λ source. source.now) result
        ≡ find_source (source_view table.now) name.now version.now }
{
    group_at(&table.sources, place_of(&table.names, name))
        .iter()
        .find(|source| is_of_version(version, source))
}
