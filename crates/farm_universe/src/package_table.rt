//! The packages of the first text, by the number of their name and by version.

ghost use Rattle.std.specs.Prelude.{◌≡◌, ◌+◌, ◌<◌, ◌≤◌, IfSome, OnOk, IfOk, IfErr, None, Some, length, [], get_or, set};
ghost use Rattle.std.specs.Option.{option_map};
ghost use Rattle.std.specs.Str.{bytes_eq};
ghost use Rattle.indexmap.specs.IndexSet.{index_set_len};
ghost use Rattle.deb_text.specs.Common.{Fails, Gives, refusal_of as fault_of, in_order, place_in, lists};
ghost use Rattle.farm_universe.specs.Keyed.{group_at};
ghost use Rattle.farm_universe.specs.PackagesText.{entry_count, is_below, is_over, packages_of, table_of};
ghost use Rattle.farm_universe.specs.TableParts.{IsTablePart, IsReadTo};
ghost use Rattle.farm_universe.specs.TableSteps.{put_at, code_at, add, add_paragraph, tell_paragraph};
ghost use Rattle.farm_universe.specs.TableView.{listed_view, table_view, IsFit, IsListedPackage, IsWithinTable, Rises};
ghost use Rattle.farm_universe.specs.View.{code_of, refusal_of};

use crate::binary::{Package, insert_in_order, is_given};
use crate::error::{FieldFault, told};
use crate::keyed::{group_at, put_new};
use crate::limits::{MOST_ENTRIES, MOST_NAMES, MOST_SIZE, MOST_VARIANTS};
use crate::packages::{Listed, read_package, read_packages};
use crate::paragraph::Paragraph;
use crate::side_by_side::{BYTES_FOR_THREADS, PART_BYTES, is_short, take_part};
use crate::steps::{ParagraphStep, read_steps};
use deb_stanza::Paragraphs;
use deb_text::Fault;
use deb_text::files::PACKAGES;
use indexmap::IndexSet;
use std::alloc::{AllocError, Global};
use std::thread::{Threads, join};

/// The names in the order of their first appearance, and for each its packages from the lowest
/// version up.
#[derive(Drop)]
pub struct PackageTable {
    pub names: IndexSet<Vec<u8>>,
    pub packages: Vec<Vec<Package>>,
    pub entries: usize,
}

/// The number of a name.
pub fn place_of(names: &IndexSet<Vec<u8>>, name: &[u8]) -> Option<usize>
    ensures place { result ≡ place_in bytes_eq (lists names.now.keys) name.now }
    ensures within { IfSome result (λ i. i < index_set_len names.now) }
{
    names.get_index_of(name)
}

/// The packages of a name, from the lowest version up.
pub fn packages_at(table: &PackageTable, number: usize) -> &[Package]
    requires fit { IsFit (table_view table.now) }
    requires within { number < length (table_view table.now).packages }
    ensures packages { result.now ≡ get_or (table_view table.now).packages number [] }
    ensures few { length result.now ≤ MOST_VARIANTS }
{
    &table.packages[number]
}

/// Tells whether there are too many names or entries with this package.
fn is_over(table: &PackageTable, at: Option<usize>, listed: &Listed) -> bool
    requires { IsFit (table_view table.now) }
    ensures { result ≡ is_over (put_at (table_view table.now) at (listed_view listed.now)) }
{
    if at.is_none() && table.names.len() == MOST_NAMES {
        return true;
    }
    !listed.binary.has_at_most(MOST_ENTRIES - table.entries)
}

#[tactic(auto, unfolding(crate::specs::TableSteps::code_at))]
fn fault_at(table: &PackageTable, at: Option<usize>, listed: &Listed) -> Option<FieldFault>
    requires fit { IsFit (table_view table.now) }
    requires within { IsWithinTable (table_view table.now) at }
    ensures { option_map code_of result
        ≡ code_at (table_view table.now) at (listed_view listed.now) }
{
    let given = group_at(&table.packages, at);
    if is_given(given, &listed.binary) {
        return Some(FieldFault::Twice);
    }
    if given.len() >= MOST_VARIANTS {
        return Some(FieldFault::TooManyVariants);
    }
    if is_over(table, at, listed) {
        return Some(FieldFault::OverLimit);
    }
    None
}

/// Puts a package to those of a name that is there.
fn put_there(table: &mut PackageTable, at: usize, binary: Package) -> Result<(), FieldFault>
    requires within { at < length (table_view table.old).packages }
    requires rises { Rises (get_or (table_view table.old).packages at []) }
    ensures names { table.new.names ≡ table.old.names }
    ensures packages { OnOk result (lists table.new.packages.items
        ≡ set (lists table.old.packages.items) at
        (in_order is_below binary (get_or (lists table.old.packages.items) at []))) }
    ensures entries { table.new.entries ≡ table.old.entries }
    ensures memory { IfErr result (λ e. refusal_of e ≡ None) }
{
    insert_in_order(&mut table.packages[at], binary)?;
    Ok(())
}

/// Puts a package of the name with this number, or of a new name.
fn put_at(
    alloc: Global,
    table: &mut PackageTable,
    at: Option<usize>,
    listed: Listed,
) -> Result<(), FieldFault>
    requires fit { IsFit (table_view table.old) }
    requires at { at ≡ place_in bytes_eq (lists table.old.names.keys) listed.name.items }
    requires within { IsWithinTable (table_view table.old) at }
    requires fits { table.old.entries + entry_count listed.binary ≤ MOST_ENTRIES }
    ensures put { OnOk result
        (table_view table.new ≡ put_at (table_view table.old) at (listed_view listed)) }
    ensures memory { IfErr result (λ e. refusal_of e ≡ None) }
{
    table.entries += listed.binary.entry_count();
    match at {
        Some(i) => put_there(table, i, listed.binary),
        None => {
            let Listed { name, binary } = listed;
            put_new(alloc, &mut table.names, &mut table.packages, name, binary)
        }
    }
}

/// Goes on by a package.
#[tactic(auto, unfolding(crate::specs::TableSteps::add))]
fn add(alloc: Global, table: &mut PackageTable, listed: Listed) -> Result<(), FieldFault>
    requires fit { IsFit (table_view table.old) }
    requires small { listed.binary.size ≤ MOST_SIZE }
    ensures read { Gives refusal_of (λ _. table_view table.new) result
        (add (table_view table.old) (listed_view listed)) }
    ensures fit { OnOk result (IsFit (table_view table.new)) }
{
    let at = place_of(&table.names, &listed.name);
    if let Some(fault) = fault_at(table, at, &listed) {
        return Err(fault);
    }
    put_at(alloc, table, at, listed)
}

/// Goes on by a paragraph, of which this was read.
#[tactic(auto, unfolding(crate::specs::TableSteps::add_paragraph))]
fn add_paragraph(
    alloc: Global,
    table: &mut PackageTable,
    paragraph: &Paragraph,
    read: Result<Listed, FieldFault>,
) -> Result<(), FieldFault>
    requires fit { IsFit (table_view table.old) }
    requires read { IsListedPackage paragraph.now read }
    ensures read { Gives refusal_of (λ _. table_view table.new) result
        (add_paragraph (table_view table.old) paragraph.now) }
    ensures fit { OnOk result (IsFit (table_view table.new)) }
{
    add(alloc, table, read?)
}

/// Goes on by a paragraph, and tells its fault at its line.
#[derive(Drop)]
struct PackageStep;

impl ParagraphStep for PackageStep {
    ghost use Rattle.farm_universe.specs.PackagesText as text;

    type SoFar = PackageTable;

    type Part = Result<Listed, FieldFault>;

    ghost Said = { text.PackageTable };

    ghost said = { table_view };

    ghost is_part = { λ _ p read. IsListedPackage p read };

    ghost fits = { λ _ table. IsFit (table_view table) };

    ghost step = { λ _. tell_paragraph };

    fn read(&self, alloc: Global, paragraph: &Paragraph) -> Result<Listed, FieldFault> {
        read_package(alloc, paragraph)
    }

    #[tactic(auto, using(crate::proofs::ToldLaws::gives_told))]
    fn take(
        &self,
        alloc: Global,
        table: &mut PackageTable,
        paragraph: &Paragraph,
        read: Result<Listed, FieldFault>,
    ) -> Result<(), Fault> {
        told(
            PACKAGES,
            paragraph,
            add_paragraph(alloc, table, paragraph, read),
        )
    }
}

/// A table without a package.
fn empty_table(alloc: Global) -> PackageTable
    ensures empty { table_view result ≡ table_of [] }
    ensures fit { IsFit (table_view result) }
{
    PackageTable {
        names: IndexSet::new(alloc),
        packages: Vec::new(alloc),
        entries: 0,
    }
}

/// Reads the paragraphs of the packages text.
///
/// # Errors
///
/// The first fault of a paragraph, told at its first line: those of [`read_package`], then 203, 204
/// and 210. [`Fault::MEMORY`] where memory is refused.
pub fn read_table(alloc: Global, paragraphs: &Paragraphs) -> Result<PackageTable, Fault>
    ensures read { Gives fault_of table_view result (packages_of paragraphs.now) }
    ensures fit { IfOk result (λ table. IsFit (table_view table)) }
{
    read_steps(alloc, &PackageStep, empty_table(alloc), paragraphs, 0)
}

/// What was read of the paragraphs from one up to another.
#[derive(Drop)]
struct ReadPart {
    first: usize,
    end: usize,
    read: Vec<Result<Listed, FieldFault>>,
}

/// Reads the part that begins with this paragraph, by as many threads as there are processors.
fn read_part(
    rt: &(impl Threads + Sync),
    alloc: Global,
    paragraphs: &Paragraphs,
    first: usize,
) -> Result<ReadPart, AllocError>
    requires { first < length paragraphs.now }
    ensures first { IfOk result (λ part. part.first ≡ first) }
    ensures part { IfOk result (IsTablePart paragraphs.now) }
{
    let end = paragraphs.part_end(first, PART_BYTES);
    let read = read_packages(rt, alloc, paragraphs, first, end)?;
    Ok(ReadPart { first, end, read })
}

/// Puts a part behind the paragraphs before it.
///
/// # Errors
///
/// The first fault of one of its paragraphs. [`Fault::MEMORY`] where memory is refused.
fn take_read(
    alloc: Global,
    mut table: PackageTable,
    paragraphs: &Paragraphs,
    part: ReadPart,
) -> Result<PackageTable, Fault>
    requires table { IsReadTo paragraphs.now part.first table }
    requires part { IsTablePart paragraphs.now part }
    ensures read { IfOk result (IsReadTo paragraphs.now part.end) }
    ensures fault { IfErr result (λ e. Fails fault_of e (packages_of paragraphs.now)) }
{
    take_part(
        alloc,
        &PackageStep,
        &mut table,
        paragraphs,
        part.first,
        part.read,
    )?;
    Ok(table)
}

/// Puts a part behind the paragraphs before it, and reads the next one beside that: neither asks
/// for the other.
fn take_beside_next(
    rt: &(impl Threads + Sync),
    alloc: Global,
    paragraphs: &Paragraphs,
    table: PackageTable,
    part: ReadPart,
) -> (Result<ReadPart, AllocError>, Result<PackageTable, Fault>)
    requires table { IsReadTo paragraphs.now part.first table }
    requires part { IsTablePart paragraphs.now part }
    requires more { part.end < length paragraphs.now }
    ensures first { IfOk result.0 (λ next. next.first ≡ part.end) }
    ensures next { IfOk result.0 (IsTablePart paragraphs.now) }
    ensures read { IfOk result.1 (IsReadTo paragraphs.now part.end) }
    ensures fault { IfErr result.1 (λ e. Fails fault_of e (packages_of paragraphs.now)) }
{
    let end = part.end;
    join(
        rt,
        || -> Result<ReadPart, AllocError>
            requires { end < length paragraphs.now }
            ensures first { IfOk result (λ next. next.first ≡ end) }
            ensures next { IfOk result (IsTablePart paragraphs.entry.now) }
        { read_part(rt, alloc, paragraphs, end) },
        move || -> Result<PackageTable, Fault>
            requires table { IsReadTo paragraphs.now part.first table }
            requires part { IsTablePart paragraphs.now part }
            ensures read { IfOk result (IsReadTo paragraphs.entry.now part.end) }
            ensures fault { IfErr result
                (λ e. Fails fault_of e (packages_of paragraphs.entry.now)) }
        { take_read(alloc, table, paragraphs, part) },
    )
}

/// Reads the paragraphs of the packages text as [`read_table`] does, by as many threads as there
/// are processors, unless they are short.
///
/// # Errors
///
/// Those of [`read_table`].
pub fn read_table_side_by_side(
    rt: &(impl Threads + Sync),
    alloc: Global,
    paragraphs: &Paragraphs,
) -> Result<PackageTable, Fault>
    ensures read { Gives fault_of table_view result (packages_of paragraphs.now) }
    ensures fit { IfOk result (λ table. IsFit (table_view table)) }
{
    if is_short(paragraphs, 0, BYTES_FOR_THREADS) {
        return read_table(alloc, paragraphs);
    }
    let mut table = empty_table(alloc);
    let mut part = read_part(rt, alloc, paragraphs, 0)?;
    while part.end < paragraphs.count() {
        let (next, taken) = take_beside_next(rt, alloc, paragraphs, table, part);
        // a fault of this part stands before any of the next one
        table = taken?;
        part = next?;
    }
    take_read(alloc, table, paragraphs, part)
}
