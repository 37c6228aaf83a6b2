//! The texts of an import of encoded inputs, finished and judged.

ghost use Rattle.std.specs.Prelude.{◌≡◌, ◌++◌, Ok, IfOk};
ghost use Rattle.deb_stanza.specs.Stanza.{paragraphs_at};
ghost use Rattle.farm_universe.specs.UniverseText.{universe_of};
ghost use Rattle.cross_import.specs.CrossImport.{AreClear, AreFinishedTexts, IsFarmOf, IsFinishedText, archive_of};
ghost use Rattle.deb_text.specs.Common.{traverse};
ghost use Rattle.deb_text.specs.Lists.{lists};
ghost use Rattle.cross_clear.specs.Guard.{ArePackagesKept};
ghost use Rattle.cross_index.specs.Finished.{IsFinished, given_at};
ghost use Rattle.import_farm.specs.declared.imported.TheConstants.{HEAD};

use crate::counts::{Counts, counted, over_lines, push_counts};
use crate::farm_recipes::has_recipes;
use crate::met::{push_lines, said_no_more};
use crate::stop::{Stop, fault_in, made_fault, stop_in};
use cross_clear::{Members, NamedSources, Names, chosen_sources, push_skews, refused};
use cross_index::{finish_packages, read_all};
use cross_relations::{Binary, Sides};
use cross_wish::{CrossWish, push_wish_notes};
use deb_profile::ArchNames;
use deb_stanza::Paragraphs;
use deb_text::Fault;
use deb_text::files::{FARM, PACKAGES};
use farm_lookup::Unmet;
use farm_universe::Universe;
use import_farm::{HEAD, ImportedTexts, Inputs, NamedText, push_number};
use std::alloc::{AllocError, Global};

/// A wish and what is looked up for it: its paragraphs, the names that match the architecture on
/// which is built, and what the import is given.
#[derive(Clone, Copy)]
pub struct Wished<'a> {
    pub wish: &'a CrossWish<'a>,
    pub paragraphs: &'a Paragraphs,
    pub names: &'a ArchNames,
    pub inputs: Inputs<'a>,
}

/// What was seen of the indexes: how many packages are passed over, and the sources that are
/// wanted.
#[derive(Clone, Copy)]
pub struct Looked<'a, 'b> {
    pub passed: u64,
    pub kept: &'a [NamedSources<'b>],
}

/// What an import of encoded inputs tells: what nothing in its farm meets, and lines.
#[derive(Clone, Copy)]
pub struct ToldOf<'a> {
    pub unmet: &'a [Unmet],
    pub lines: &'a [u8],
}

/// Texts, and lines that tell of them.
#[derive(Drop)]
pub struct Finished {
    pub texts: ImportedTexts,
    pub lines: Vec<u8>,
}

/// Texts, and the farm that they are read as.
#[derive(Clone, Copy)]
struct Farm<'a> {
    texts: &'a ImportedTexts,
    universe: &'a Universe,
}

/// Lines of an import, and what some of them say that no longer holds.
#[derive(Clone, Copy)]
struct Told<'a> {
    lines: &'a [u8],
    met: &'a [Vec<u8>],
}

/// The line of the first paragraph.
pub fn first_line(paragraphs: &Paragraphs) -> u32 {
    if paragraphs.count() == 0 {
        return 0;
    }
    paragraphs.line_of(0)
}

/// Packages, finished, behind the head of a text.
fn with_head(alloc: Global, finished: &[u8]) -> Result<Vec<u8>, AllocError>
    ensures { IfOk result (λ text. text.items ≡ HEAD.now ++ finished.now) }
{
    let mut text = Vec::from_slice(alloc, HEAD)?;
    text.extend_from_slice(finished)?;
    Ok(text)
}

fn finished_behind(alloc: Global, sides: &Sides, rest: &[u8]) -> Result<Vec<u8>, Stop>
    ensures { IfOk result (λ made. IsFinished sides.now rest.now made.items) }
{
    match finish_packages(alloc, sides, rest) {
        Ok(made) => Ok(made),
        Err(stop) => Err(stop_in(alloc, b"packages", stop)),
    }
}

/// The packages text of an import, finished.
fn finished_text(alloc: Global, sides: &Sides, packages: &[u8]) -> Result<Vec<u8>, Stop>
    ensures { IfOk result (λ text. IsFinishedText sides.now packages.now text.items) }
{
    let Some(rest) = packages.strip_prefix(HEAD) else {
        return Err(Stop::Wrong);
    };
    let made = finished_behind(alloc, sides, rest)?;
    let text = with_head(alloc, &made)?;
    Ok(text)
}

/// The texts of an import, with the packages finished.
fn all_finished(alloc: Global, sides: &Sides, made: ImportedTexts) -> Result<ImportedTexts, Stop>
    ensures { IfOk result (AreFinishedTexts sides.now made) }
{
    let packages = finished_text(alloc, sides, &made.packages)?;
    Ok(ImportedTexts {
        packages,
        sources: made.sources,
        farm: made.farm,
    })
}

/// The line of a fault in texts: empty where the fault has none.
fn line_of(texts: &ImportedTexts, fault: Fault) -> &[u8] {
    let text: &[u8] = match fault.file {
        PACKAGES => &texts.packages,
        FARM => &texts.farm,
        _ => &texts.sources,
    };
    let mut number: u32 = 1;
    for line in text.split(|byte| *byte == b'\n') {
        if number == fault.line {
            return line;
        }
        number = number.saturating_add(1);
    }
    b""
}

/// Reads texts, as every command reads them.
fn read_texts(alloc: Global, texts: &ImportedTexts) -> Result<Universe, Stop>
    ensures { IfOk result (λ universe. universe_of texts.now.packages.items
        texts.now.sources.items texts.now.farm.items ≡ Ok universe) }
{
    match Universe::read(alloc, &texts.packages, &texts.sources, &texts.farm) {
        Ok(universe) => Ok(universe),
        Err(refused) => {
            let fault = refused.fault;
            Err(made_fault(alloc, fault, line_of(texts, fault)))
        }
    }
}

/// Reads the paragraphs of a text of a name.
pub fn read_paragraphs(alloc: Global, name: &[u8], text: &[u8]) -> Result<Paragraphs, Stop>
    ensures { IfOk result (λ paragraphs. paragraphs_at text.now ≡ Ok paragraphs) }
{
    match Paragraphs::read(alloc, text) {
        Ok(paragraphs) => Ok(paragraphs),
        Err(fault) => Err(fault_in(alloc, name, fault)),
    }
}

fn read_binaries(alloc: Global, sides: &Sides, paragraphs: &Paragraphs) -> Result<Vec<Binary>, Stop>
    ensures { IfOk result (λ all. traverse (given_at sides.now) paragraphs.now ≡ Ok all.items) }
{
    match read_all(alloc, sides, paragraphs) {
        Ok(all) => Ok(all),
        Err(stop) => Err(stop_in(alloc, b"packages", stop)),
    }
}

/// Refuses a farm in whose names something would be met by what dpkg does not take.
fn judge_clear(
    alloc: Global,
    of: Wished,
    looked: Looked,
    members: Members,
    farm: &[u8],
    universe: &Universe,
) -> Result<(), Stop>
    ensures { IfOk result (λ _. ArePackagesKept members.entry.sides.now members.entry.all.now
        members.entry.paragraphs.now) }
{
    let farm = read_paragraphs(alloc, b"farm", farm)?;
    let names = Names {
        build: of.names,
        host: universe.arch_names(),
    };
    let chosen = chosen_sources(alloc, looked.kept, of.wish, &farm, names)?;
    let line = first_line(of.paragraphs);
    match refused(alloc, members, of.wish, line, &chosen)? {
        Some(lines) => Err(Stop::Told(lines)),
        None => Ok(()),
    }
}

/// Puts a note on paragraphs that are passed over behind a text.
fn push_passed(lines: &mut Vec<u8>, passed: u64) -> Result<(), AllocError> {
    if passed == 0 {
        return Ok(());
    }
    lines.extend_from_slice(b"note: ")?;
    push_number(lines, passed)?;
    lines.extend_from_slice(b" paragraphs of neither architecture are passed over\n")
}

/// The lines on a farm, of which these begin with counts.
fn lines_of(
    alloc: Global,
    of: Wished,
    looked: Looked,
    members: Members,
    counts: Counts,
    told: Told,
) -> Result<Vec<u8>, AllocError> {
    let mut lines = Vec::new(alloc);
    let rest = push_counts(&mut lines, counts, told.lines)?;
    push_wish_notes(alloc, &mut lines, of.inputs.wish, of.wish, of.paragraphs)?;
    push_lines(&mut lines, rest, told.met)?;
    push_skews(alloc, &mut lines, members)?;
    push_passed(&mut lines, looked.passed)?;
    Ok(lines)
}

/// The indexes of what is there at the beginning.
pub fn archive_of<'a>(inputs: Inputs<'a>) -> &'a [NamedText<'a>]
    ensures { result.now ≡ archive_of inputs.entry }
{
    if inputs.archive.is_empty() {
        inputs.packages
    } else {
        inputs.archive
    }
}

/// Judges a farm and tells of it.
fn tell(
    alloc: Global,
    of: Wished,
    looked: Looked,
    packages: &[u8],
    farm: Farm,
    told: ToldOf,
) -> Result<Vec<u8>, Stop>
    ensures { IfOk result (λ _. AreClear of.entry.wish.now.head.sides packages.now) }
{
    let sides = &of.wish.head.sides;
    let paragraphs = read_paragraphs(alloc, b"packages", packages)?;
    let all = read_binaries(alloc, sides, &paragraphs)?;
    let members = Members {
        sides,
        paragraphs: &paragraphs,
        all: &all,
        archive: archive_of(of.inputs),
        packages: of.inputs.packages,
    };
    judge_clear(alloc, of, looked, members, &farm.texts.farm, farm.universe)?;
    let counts = counted(alloc, farm.texts);
    if let Some(lines) = over_lines(alloc, counts)? {
        return Err(Stop::Told(lines));
    }
    let met = said_no_more(alloc, farm.universe, told.unmet)?;
    let told = Told {
        lines: told.lines,
        met: &met,
    };
    Ok(lines_of(alloc, of, looked, members, counts, told)?)
}

/// Reads finished texts, and tells of their farm; of the packages as they were made.
fn tell_texts(
    alloc: Global,
    of: Wished,
    looked: Looked,
    packages: &[u8],
    texts: &ImportedTexts,
    told: ToldOf,
) -> Result<Vec<u8>, Stop>
    ensures clear { IfOk result (λ _. AreClear of.entry.wish.now.head.sides packages.now) }
    ensures farm { IfOk result
        (λ _. IsFarmOf (lists of.entry.wish.now.items.recipe_names.items) texts.now) }
{
    let universe = read_texts(alloc, texts)?;
    if !has_recipes(&universe, &of.wish.items.recipe_names) {
        return Err(Stop::Wrong);
    }
    let farm = Farm {
        texts,
        universe: &universe,
    };
    let lines = tell(alloc, of, looked, packages, farm, told)?;
    Ok(lines)
}

fn copied(alloc: Global, packages: &[u8]) -> Result<Vec<u8>, AllocError>
    ensures { IfOk result (λ text. text.items ≡ packages.now) }
{
    Vec::from_slice(alloc, packages)
}

/// Finishes the texts of an import of encoded inputs, and tells of them.
///
/// # Errors
///
/// The refusal 707 where something would be met by what dpkg does not take, and 710 where the
/// finished packages are over a limit.
pub fn finish(
    alloc: Global,
    of: Wished,
    looked: Looked,
    made: ImportedTexts,
    told: ToldOf,
) -> Result<Finished, Stop>
    ensures finished { IfOk result
        (λ finished. AreFinishedTexts of.entry.wish.now.head.sides made finished.texts) }
    ensures clear { IfOk result (λ _. AreClear of.entry.wish.now.head.sides made.packages.items) }
    ensures farm { IfOk result (λ finished.
        IsFarmOf (lists of.entry.wish.now.items.recipe_names.items) finished.texts) }
{
    let packages = copied(alloc, &made.packages)?;
    let texts = all_finished(alloc, &of.wish.head.sides, made)?;
    let lines = tell_texts(alloc, of, looked, &packages, &texts, told)?;
    Ok(Finished { texts, lines })
}
