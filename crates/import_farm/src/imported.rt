//! The texts of a farm, made of a wish and of whole indexes.

ghost use Rattle.std.specs.Prelude.{◌≡◌, ◌++◌, IfOk, Ok};
ghost use Rattle.deb_stanza.specs.Stanza.{paragraphs_at};
ghost use Rattle.import_wish.specs.Wish.{wish_at, wish_view};
ghost use Rattle.import_farm.specs.Imported.{AreImported, AreTextsOf, IsOfWish};
ghost use Rattle.import_farm.specs.Made.{IsBlockIn, IsOneOf};
ghost use Rattle.import_farm.specs.Notes.{HasNotes};

use crate::architectures::all_names;
use crate::indexes::{Packages, Sources, read_packages, read_sources};
use crate::judge::tell;
use crate::refusals::{Stop, fault_in};
use crate::taken::{Builds, Given, Read, Taken, read_builds, take};
use crate::tell::{Judgement, Tell, Told};
use crate::watch::Watch;
use crate::written::draw_all;
use deb_profile::ArchNames;
use deb_stanza::Paragraphs;
use farm_lookup::Unmet;
use import_closure::{Build, NameTable, Shelf, SourceShelf};
use import_wish::{Wish, read_wish};
use std::alloc::{AllocError, Global};

/// What each text begins with.
pub const HEAD: &[u8] = b"# made by portfarm import\n";

/// An index, and what it is called.
#[derive(Clone, Copy)]
pub struct NamedText<'a> {
    pub name: &'a str,
    pub bytes: &'a [u8],
}

/// A wish and indexes: of what builds give, of what is there at the beginning (none where that is
/// the same), and of sources.
#[derive(Clone, Copy)]
pub struct Inputs<'a> {
    pub wish: &'a [u8],
    pub packages: &'a [NamedText<'a>],
    pub archive: &'a [NamedText<'a>],
    pub sources: &'a [NamedText<'a>],
}

/// The texts of a farm.
#[derive(Drop)]
pub struct ImportedTexts {
    pub packages: Vec<u8>,
    pub sources: Vec<u8>,
    pub farm: Vec<u8>,
}

/// What an import comes to: texts, what nothing in their farm meets of what is asked for, and lines
/// that tell of both; the lines of a refusal; or that the texts that were made are not those of the
/// wish, which is a fault of this program.
#[derive(Drop)]
pub enum Imported {
    Texts(ImportedTexts, Vec<Unmet>, Vec<u8>),
    Refused(Vec<u8>),
    Wrong,
}

/// Reads the paragraphs of a wish.
pub fn wish_paragraphs(alloc: Global, text: &[u8]) -> Result<Paragraphs, Stop>
    ensures { IfOk result (λ paragraphs. paragraphs_at text.now ≡ Ok paragraphs) }
{
    match Paragraphs::read(alloc, text) {
        Ok(paragraphs) => Ok(paragraphs),
        Err(fault) => Err(fault_in(alloc, b"wish", fault)),
    }
}

/// Reads a wish of its paragraphs.
pub fn wish_of(alloc: Global, paragraphs: &Paragraphs) -> Result<Wish<'_>, Stop>
    ensures { IfOk result (λ wish. wish_at paragraphs.now ≡ Ok (wish_view wish)) }
{
    match read_wish(alloc, paragraphs) {
        Ok(wish) => Ok(wish),
        Err(fault) => Err(fault_in(alloc, b"wish", fault)),
    }
}

/// Reads the names of an architecture.
pub fn architectures_of(alloc: Global, text: &[u8]) -> Result<ArchNames, Stop> {
    match ArchNames::parse(alloc, text) {
        Ok(names) => Ok(names),
        Err(_) => Err(Stop::OutOfMemory),
    }
}

/// Texts as they were written, what nothing in their farm meets, and the lines on it.
#[derive(Drop)]
pub struct Judged {
    pub texts: ImportedTexts,
    pub unmet: Vec<Unmet>,
    pub lines: Vec<u8>,
}

/// Writes the texts of what was taken, reads them again, and tells of their farm.
fn write_taken<T: Tell>(
    alloc: Global,
    read: Read,
    shelf: &mut Shelf,
    sources: &SourceShelf,
    taken: &Taken,
) -> Result<Judged, Stop>
    ensures texts { IfOk result (λ judged. AreTextsOf
        (IsOneOf read.entry.of.packages.now.blocks.items) (IsOneOf read.entry.sources.now)
        (wish_view read.entry.of.wish.now) judged.texts judged.unmet.items) }
    ensures noted { IfOk result (λ judged. HasNotes judged.unmet.items judged.lines.items) }
{
    let told = Told { read, taken };
    let written = draw_all::<T>(alloc, told, shelf)?;
    let Judgement { unmet, lines } = tell::<T>(alloc, shelf, sources, told, &written)?;
    Ok(Judged {
        texts: written.texts,
        unmet,
        lines,
    })
}

/// The builds of all recipes of a wish; else the lines on those that cannot be made.
fn builds_of<T: Tell>(
    alloc: Global,
    read: Read,
    shelf: &mut Shelf,
    sources: &mut SourceShelf,
) -> Result<Vec<Build>, Stop> {
    let Builds { made, refused } = read_builds(alloc, read.of, shelf, sources)?;
    if refused.is_empty() {
        return Ok(made);
    }
    let lines = T::recipe_lines(alloc, shelf, sources, read, &refused)?;
    Err(Stop::Told(lines))
}

/// Takes what a wish wants, writes the texts, and tells of them. Packages and sources may have been
/// looked at before.
pub fn import_shelved<T: Tell>(
    alloc: Global,
    read: Read,
    shelf: &mut Shelf,
    sources: &mut SourceShelf,
) -> Result<Judged, Stop>
    ensures texts { IfOk result (λ judged. AreTextsOf
        (IsOneOf read.entry.of.packages.now.blocks.items) (IsOneOf read.entry.sources.now)
        (wish_view read.entry.of.wish.now) judged.texts judged.unmet.items) }
    ensures noted { IfOk result (λ judged. HasNotes judged.unmet.items judged.lines.items) }
{
    let builds = builds_of::<T>(alloc, read, shelf, sources)?;
    let taken = take(alloc, read.of, shelf, builds)?;
    write_taken::<T>(alloc, read, shelf, sources, &taken)
}

/// The same, over packages of which nothing was read.
fn import_read<T: Tell>(alloc: Global, read: Read, names: NameTable) -> Result<Judged, Stop>
    ensures texts { IfOk result (λ judged. AreTextsOf
        (IsOneOf read.entry.of.packages.now.blocks.items) (IsOneOf read.entry.sources.now)
        (wish_view read.entry.of.wish.now) judged.texts judged.unmet.items) }
    ensures noted { IfOk result (λ judged. HasNotes judged.unmet.items judged.lines.items) }
{
    let mut shelf = Shelf::new(alloc, &read.of.packages.blocks, read.of.architectures)?;
    let mut sources = SourceShelf {
        blocks: read.sources,
        names,
        unreadable: Vec::new(alloc),
    };
    import_shelved::<T>(alloc, read, &mut shelf, &mut sources)
}

/// A wish as it was read, and its text.
#[derive(Clone, Copy)]
struct WishRead<'a> {
    text: &'a [u8],
    paragraphs: &'a Paragraphs,
    wish: &'a Wish<'a>,
}

/// Takes what a wish wants of indexes that were cut.
fn import_cut<'a, T: Tell>(
    alloc: Global,
    wish: WishRead<'a>,
    names: Vec<u8>,
    architectures: ArchNames,
    packages: Packages<'a>,
    sources: Sources<'a>,
) -> Result<Judged, Stop>
    ensures texts { IfOk result (λ judged. AreTextsOf
        (IsOneOf packages.entry.blocks.items) (IsOneOf sources.entry.blocks.items)
        (wish_view wish.entry.wish.now) judged.texts judged.unmet.items) }
    ensures noted { IfOk result (λ judged. HasNotes judged.unmet.items judged.lines.items) }
{
    let source_names = sources.names;
    let read = Read {
        text: wish.text,
        paragraphs: wish.paragraphs,
        choice: None,
        names: &names,
        sources: &sources.blocks,
        of: Given {
            wish: wish.wish,
            packages: &packages,
            architectures: &architectures,
        },
    };
    import_read::<T>(alloc, read, source_names)
}

/// Reads the indexes, and takes what a wish wants of them.
fn import_wished<'a, T: Tell, W: Watch>(
    alloc: Global,
    inputs: Inputs<'a>,
    wish: WishRead<'a>,
    watch: &mut W,
) -> Result<Judged, Stop>
    ensures texts { IfOk result (λ judged. AreTextsOf
        (IsBlockIn (inputs.entry.packages.now ++ inputs.entry.archive.now))
        (IsBlockIn inputs.entry.sources.now) (wish_view wish.entry.wish.now)
        judged.texts judged.unmet.items) }
    ensures noted { IfOk result (λ judged. HasNotes judged.unmet.items judged.lines.items) }
{
    let names = all_names(alloc, &wish.wish.head.architectures)?;
    let architectures = architectures_of(alloc, &names)?;
    let packages = read_packages(
        alloc,
        &architectures,
        inputs.packages,
        inputs.archive,
        watch,
    )?;
    let sources = read_sources(alloc, inputs.sources, watch)?;
    let judged = import_cut::<T>(alloc, wish, names, architectures, packages, sources)?;
    Ok(judged)
}

/// Reads a wish of these paragraphs, and makes the texts of it.
fn import_paragraphs<T: Tell, W: Watch>(
    alloc: Global,
    inputs: Inputs,
    paragraphs: &Paragraphs,
    watch: &mut W,
) -> Result<Judged, Stop>
    ensures texts { IfOk result (λ judged. IsOfWish inputs.entry paragraphs.now judged.texts
        judged.unmet.items) }
    ensures noted { IfOk result (λ judged. HasNotes judged.unmet.items judged.lines.items) }
{
    let wish = wish_of(alloc, paragraphs)?;
    let read = WishRead {
        text: inputs.wish,
        paragraphs,
        wish: &wish,
    };
    import_wished::<T, W>(alloc, inputs, read, watch)
}

/// Reads a wish, and makes the texts of it.
fn import_text<T: Tell, W: Watch>(
    alloc: Global,
    inputs: Inputs,
    watch: &mut W,
) -> Result<Imported, Stop>
    ensures { IfOk result (AreImported inputs.entry) }
{
    let paragraphs = wish_paragraphs(alloc, inputs.wish)?;
    let judged = import_paragraphs::<T, W>(alloc, inputs, &paragraphs, watch)?;
    let Judged {
        texts,
        unmet,
        lines,
    } = judged;
    Ok(Imported::Texts(texts, unmet, lines))
}

/// Makes the texts of a farm of a wish and of indexes, and tells of them in the words of `T`.
/// Meanwhile somebody hears how far the reading of the indexes has come.
pub fn import<T: Tell, W: Watch>(
    alloc: Global,
    inputs: Inputs,
    watch: &mut W,
) -> Result<Imported, AllocError>
    ensures { IfOk result (AreImported inputs.entry) }
{
    match import_text::<T, W>(alloc, inputs, watch) {
        Ok(imported) => Ok(imported),
        Err(Stop::Refused(refusal)) => {
            Ok(Imported::Refused(T::refusal_lines(alloc, inputs, &refusal)?))
        }
        Err(Stop::Told(lines)) => Ok(Imported::Refused(lines)),
        Err(Stop::Wrong) => Ok(Imported::Wrong),
        Err(Stop::OutOfMemory) => Err(AllocError),
    }
}
