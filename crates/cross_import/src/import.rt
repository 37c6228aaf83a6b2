//! The texts of a farm of two architectures.

ghost use Rattle.std.specs.Prelude.{◌≡◌, map, true, false, Ok, IfOk};
ghost use Rattle.cross_laws.specs.Encoding.{encoded_needs};
ghost use Rattle.cross_index.specs.Seen.{by_build};
ghost use Rattle.cross_sources.specs.Relations.{way_of};
ghost use Rattle.cross_wish.specs.Views.{cross_wish_view};
ghost use Rattle.cross_wish.specs.Wish.{cross_wish_at, is_cross};
ghost use Rattle.cross_import.specs.Pushed.{encoded_texts};
ghost use Rattle.cross_index.specs.EncodedIndex.{IsEncodedIndex};
ghost use Rattle.cross_import.specs.CrossImport.{AreCrossImported, AreEach, AreEncodedOf, AreMade, AreOf, AreOfIndexes, AreOfParagraphs, OnTexts, archive_of, cross_in, texts_of, wanted_as, wanted_of};

use crate::encoded::{EncodedPackages, EncodedText, encode_all, encode_all_sources, named};
use crate::finish::{
    Finished, Looked, ToldOf, Wished, archive_of, finish, first_line, read_paragraphs,
};
use crate::stop::{Stop, stop_in, stopped};
use crate::told::CrossLines;
use cross_relations::Sides;
use cross_sources::{Asked, WantedSource};
use cross_wish::{CrossRecipe, CrossWish, encoded_wish, read_cross_wish, seen};
use deb_profile::ArchNames;
use deb_stanza::Paragraphs;
use deb_text::Fault;
use debian_index::architecture_names;
use import_farm::{Imported, ImportedTexts, Inputs, NamedText, Tell, Watch, import};
use std::alloc::{AllocError, Global};

fn has_architecture(paragraphs: &Paragraphs) -> bool
    ensures { result ≡ is_cross paragraphs.now }
{
    if paragraphs.count() == 0 {
        return false;
    }
    paragraphs.field(0, b"Build-Architecture").is_some()
}

/// Tells whether a wish is for two architectures: its first paragraph has `Build-Architecture`. One
/// that cannot be read is none.
pub fn is_cross(alloc: Global, wish: &[u8]) -> Result<bool, AllocError>
    ensures { IfOk result (λ is. is ≡ cross_in wish.now) }
{
    match Paragraphs::read(alloc, wish) {
        Ok(paragraphs) => Ok(has_architecture(&paragraphs)),
        Err(fault) => {
            if fault == Fault::MEMORY {
                return Err(AllocError);
            }
            Ok(false)
        }
    }
}

/// The names that match an architecture.
fn names_of(alloc: Global, architecture: &[u8]) -> Result<ArchNames, AllocError> {
    let mut text = Vec::new(alloc);
    for name in &architecture_names(alloc, architecture)? {
        text.extend_from_slice(name)?;
        text.extend_from_slice(b" ")?;
    }
    match ArchNames::parse(alloc, &text) {
        Ok(names) => Ok(names),
        Err(_) => Err(AllocError),
    }
}

fn wanted_source(alloc: Global, recipe: &CrossRecipe) -> Result<WantedSource, AllocError>
    ensures name { IfOk result
        (λ wanted. wanted.name.items ≡ recipe.now.native.source.name.items) }
    ensures side { IfOk result (λ wanted. wanted.side ≡ recipe.now.side) }
{
    Ok(WantedSource {
        name: Vec::from_slice(alloc, &recipe.native.source.name)?,
        side: recipe.side,
    })
}

/// The sources that the recipes of a wish build.
fn wanted_sources(alloc: Global, wish: &CrossWish) -> Result<Vec<WantedSource>, AllocError>
    ensures { IfOk result
        (λ wanted. map wanted_as wanted.items ≡ wanted_of (cross_wish_view wish.now)) }
{
    let mut wanted = Vec::new(alloc);
    for recipe in &wish.items.recipes {
        let one = wanted_source(alloc, recipe)?;
        wanted.push(one)?;
    }
    Ok(wanted)
}

/// Imports encoded inputs.
fn import_encoded<T: Tell, W: Watch>(
    alloc: Global,
    of: Wished,
    looked: Looked,
    encoded: Inputs,
    watch: &mut W,
) -> Result<Imported, Stop>
    ensures { IfOk result (OnTexts (AreOf (cross_wish_view of.entry.wish.now) encoded.entry)) }
{
    let imported = import::<CrossLines<T>, W>(alloc, encoded, watch)?;
    match imported {
        Imported::Texts(made, unmet, lines) => {
            let told = ToldOf {
                unmet: &unmet,
                lines: &lines,
            };
            let finished = finish(alloc, of, looked, made, told)?;
            let Finished { texts, lines } = finished;
            Ok(Imported::Texts(texts, unmet, lines))
        }
        Imported::Refused(lines) => Ok(Imported::Refused(lines)),
        Imported::Wrong => Ok(Imported::Wrong),
    }
}

/// The encoded indexes of an import, as texts.
#[derive(Clone, Copy)]
struct Encoded<'a, 'b> {
    packages: &'a Vec<EncodedText<'b>>,
    archive: &'a Vec<EncodedText<'b>>,
    sources: &'a Vec<EncodedText<'b>>,
}

/// Imports encoded indexes, for a wish in the names of one architecture.
fn import_indexes<T: Tell, W: Watch>(
    alloc: Global,
    of: Wished,
    looked: Looked,
    indexes: Encoded,
    wish: &[u8],
    watch: &mut W,
) -> Result<Imported, Stop>
    ensures { IfOk result (OnTexts (AreOfIndexes (cross_wish_view of.entry.wish.now)
        (encoded_texts indexes.entry.packages.now.items)
        (encoded_texts indexes.entry.archive.now.items)
        (encoded_texts indexes.entry.sources.now.items))) }
{
    let packages = named(alloc, indexes.packages)?;
    let archive = named(alloc, indexes.archive)?;
    let sources = named(alloc, indexes.sources)?;
    let encoded = Inputs {
        wish,
        packages: &packages,
        archive: &archive,
        sources: &sources,
    };
    let imported = import_encoded::<T, W>(alloc, of, looked, encoded, watch)?;
    Ok(imported)
}

/// The packages of what is there at the beginning, encoded: those that are passed over are counted
/// where they are no others than those of what builds give.
fn encode_archive<'a>(
    alloc: Global,
    sides: &Sides,
    inputs: Inputs<'a>,
) -> Result<EncodedPackages<'a>, Stop>
    ensures { IfOk result (λ made. AreEach (IsEncodedIndex sides.now true)
        (texts_of (archive_of inputs.entry)) (encoded_texts made.texts.items)) }
{
    let mut made = encode_all(alloc, sides, true, archive_of(inputs))?;
    if inputs.archive.is_empty() {
        made.passed = 0;
    }
    Ok(made)
}

/// Imports a wish whose sources are asked for so.
fn import_asked<T: Tell, W: Watch>(
    alloc: Global,
    of: Wished,
    asked: Asked,
    watch: &mut W,
) -> Result<Imported, Stop>
    ensures { IfOk result
        (OnTexts (AreEncodedOf (cross_wish_view of.entry.wish.now) (way_of asked.entry) of.entry.inputs)) }
{
    let sides = &of.wish.head.sides;
    let packages = encode_all(alloc, sides, false, of.inputs.packages)?;
    let archive = encode_archive(alloc, sides, of.inputs)?;
    let sources = encode_all_sources(alloc, asked, of.inputs.sources)?;
    let wish = encoded_wish(alloc, of.wish, first_line(of.paragraphs))?;
    let looked = Looked {
        passed: packages.passed.saturating_add(archive.passed),
        kept: &sources.kept,
    };
    let indexes = Encoded {
        packages: &packages.texts,
        archive: &archive.texts,
        sources: &sources.texts,
    };
    let imported = import_indexes::<T, W>(alloc, of, looked, indexes, &wish, watch)?;
    Ok(imported)
}

/// Imports a wish that was read.
fn import_wished<T: Tell, W: Watch>(
    alloc: Global,
    of: Wished,
    watch: &mut W,
) -> Result<Imported, Stop>
    ensures { IfOk result
        (OnTexts (AreMade (cross_wish_view of.entry.wish.now) of.entry.inputs)) }
{
    let head = &of.wish.head;
    let ahead = seen(alloc, &head.sides, &head.essential)?;
    let wanted = wanted_sources(alloc, of.wish)?;
    let asked = Asked {
        sides: &head.sides,
        names: of.names,
        ahead: &ahead,
        wanted: &wanted,
    };
    let imported = import_asked::<T, W>(alloc, of, asked, watch)?;
    Ok(imported)
}

fn read_wish<'a>(alloc: Global, paragraphs: &'a Paragraphs) -> Result<CrossWish<'a>, Stop>
    ensures { IfOk result (λ wish. cross_wish_at paragraphs.now ≡ Ok (cross_wish_view wish)) }
{
    match read_cross_wish(alloc, paragraphs) {
        Ok(wish) => Ok(wish),
        Err(stop) => Err(stop_in(alloc, b"wish", stop)),
    }
}

/// Imports a wish of these paragraphs.
fn import_paragraphs<T: Tell, W: Watch>(
    alloc: Global,
    inputs: Inputs,
    paragraphs: &Paragraphs,
    watch: &mut W,
) -> Result<Imported, Stop>
    ensures { IfOk result (OnTexts (AreOfParagraphs inputs.entry paragraphs.now)) }
{
    let wish = read_wish(alloc, paragraphs)?;
    let names = names_of(alloc, wish.head.sides.build())?;
    let of = Wished {
        wish: &wish,
        paragraphs,
        names: &names,
        inputs,
    };
    let imported = import_wished::<T, W>(alloc, of, watch)?;
    Ok(imported)
}

/// Reads a wish, and imports it.
fn import_text<T: Tell, W: Watch>(
    alloc: Global,
    inputs: Inputs,
    watch: &mut W,
) -> Result<Imported, Stop>
    ensures { IfOk result (AreCrossImported inputs.entry) }
{
    let paragraphs = read_paragraphs(alloc, b"wish", inputs.wish)?;
    let imported = import_paragraphs::<T, W>(alloc, inputs, &paragraphs, watch)?;
    Ok(imported)
}

/// Makes the texts of a farm of two architectures, of a wish and of indexes, and tells of them in
/// the words of `T`. Meanwhile somebody hears how far the reading of the indexes has come.
///
/// The names of packages and sources of the host are `NAME.HOST` in all texts and lines.
pub fn import_cross<T: Tell, W: Watch>(
    alloc: Global,
    inputs: Inputs,
    watch: &mut W,
) -> Result<Imported, AllocError>
    ensures { IfOk result (AreCrossImported inputs.entry) }
{
    match import_text::<T, W>(alloc, inputs, watch) {
        Ok(imported) => Ok(imported),
        Err(stop) => stopped::<T>(alloc, inputs, stop),
    }
}
