//! What is odd about what was taken: notes, a line each.

ghost use Rattle.std.specs.Prelude.{◌≡◌, IfOk, OnOk};
ghost use Rattle.deb_relation.specs.Spelling.{entry_text};
ghost use Rattle.import_farm.specs.Notes.{HasNotes, IsNoteOf, IsPieceOf};
ghost use Rattle.import_farm.specs.Rewriting.{GetsBehind};

use crate::foreign::foreign_note;
use deb_relation::Entry;
use deb_stanza::Paragraphs;
use deb_text::push_pieces;
use farm_lookup::{Asker, Unmet};
use farm_universe::{Universe, Variant};
use import_closure::{Build, Shelf, SourceShelf, Unreadable};
use import_farm::{Farm, Packages, Told, push_number, push_package};
use import_wish::WishedRecipe;
use plan_reader::push_entry;
use std::alloc::{AllocError, Global};
use std::collections::BTreeSet;

/// Puts a note on a recipe behind a text whose packages are those of another version.
fn push_stand_in(
    text: &mut Vec<u8>,
    wished: &WishedRecipe,
    build: &Build,
) -> Result<(), AllocError> {
    let Some(version) = &build.stand_in else {
        return Ok(());
    };
    push_pieces(text, &[b"note: recipe ", &wished.name])?;
    text.extend_from_slice(b": its packages are those of source ")?;
    push_package(text, &wished.source.name, version.text())?;
    text.extend_from_slice(b"\n")
}

/// The same of each recipe.
fn push_stand_ins(
    text: &mut Vec<u8>,
    recipes: &[WishedRecipe],
    builds: &[Build],
) -> Result<(), AllocError> {
    for (wished, build) in recipes.iter().zip(builds) {
        push_stand_in(text, wished, build)?;
    }
    Ok(())
}

/// Puts a package that asks for something behind a text.
fn push_variant(
    text: &mut Vec<u8>,
    universe: &Universe,
    variant: Variant,
) -> Result<(), AllocError> {
    if variant.name >= universe.names() || variant.bit >= universe.variants(variant.name) {
        return Ok(());
    }
    push_package(
        text,
        universe.name_text(variant.name),
        universe.version(variant).text(),
    )
}

/// Puts who asks for an entry behind a text.
fn push_asker(text: &mut Vec<u8>, universe: &Universe, asker: Asker) -> Result<(), AllocError> {
    match asker {
        Asker::Archive => text.extend_from_slice(b"Archive"),
        Asker::Recipe(number) => push_pieces(
            text,
            &[b"recipe ", universe.recipe_name(number), b" Build-Depends"],
        ),
        Asker::Package(variant) => push_variant(text, universe, variant),
    }
}

/// Puts the source that gives a package behind a text.
fn push_giver(text: &mut Vec<u8>, shelf: &Shelf, number: u32) -> Result<(), AllocError> {
    let Some(given) = shelf.given(number) else {
        return Ok(());
    };
    push_pieces(text, &[b"; source ", &given.source.name, b" gives "])?;
    push_package(text, &given.name, given.version.text())
}

/// The best that the indexes have for an entry.
fn best_anywhere(
    alloc: Global,
    shelf: &mut Shelf,
    packages: &Packages,
    entry: &Entry,
) -> Result<Option<u32>, AllocError> {
    match shelf.best(alloc, &packages.target, entry)? {
        Some(number) => Ok(Some(number)),
        None => shelf.best(alloc, packages.archive(), entry),
    }
}

/// Who asks for an entry.
fn asker_text(alloc: Global, universe: &Universe, asker: Asker) -> Result<Vec<u8>, AllocError> {
    let mut text = Vec::new(alloc);
    push_asker(&mut text, universe, asker)?;
    Ok(text)
}

/// Which source gives what would meet an entry: nothing where the indexes have nothing that does.
fn giver_text(
    alloc: Global,
    shelf: &mut Shelf,
    packages: &Packages,
    entry: &Entry,
) -> Result<Vec<u8>, AllocError> {
    let mut text = Vec::new(alloc);
    if let Some(number) = best_anywhere(alloc, shelf, packages, entry)? {
        push_giver(&mut text, shelf, number)?;
    }
    Ok(text)
}

/// The words of an entry.
fn words_of(alloc: Global, entry: &Entry) -> Result<Vec<u8>, AllocError>
    ensures { IfOk result (λ words. words.items ≡ entry_text entry.now) }
{
    let mut words = Vec::new(alloc);
    push_entry(&mut words, entry)?;
    Ok(words)
}

/// Puts a note on an entry that nothing meets behind a text.
fn push_unmet(
    alloc: Global,
    text: &mut Vec<u8>,
    shelf: &mut Shelf,
    packages: &Packages,
    universe: &Universe,
    unmet: &Unmet,
) -> Result<(), AllocError>
    ensures { OnOk result (GetsBehind (IsNoteOf unmet.now) text.old.items text.new.items) }
{
    let asker = asker_text(alloc, universe, unmet.asker)?;
    let words = words_of(alloc, &unmet.entry)?;
    let giver = giver_text(alloc, shelf, packages, &unmet.entry)?;
    push_pieces(
        text,
        &[
            b"note: ",
            &asker,
            b": ",
            &words,
            b" is met by nothing",
            &giver,
            b"\n",
        ],
    )?;
    Ok(())
}

/// Puts a note on each entry that nothing meets behind a text, those of the same words once.
fn push_all_unmet(
    alloc: Global,
    text: &mut Vec<u8>,
    shelf: &mut Shelf,
    packages: &Packages,
    farm: Farm,
) -> Result<(), AllocError>
    ensures { OnOk result (GetsBehind (IsPieceOf farm.entry.unmet.now) text.old.items text.new.items) }
{
    let mut seen = BTreeSet::new(alloc);
    for unmet in farm.unmet {
        if seen.insert(words_of(alloc, &unmet.entry)?)? {
            push_unmet(alloc, text, shelf, packages, farm.universe, unmet)?;
        }
    }
    Ok(())
}

/// The name in the paragraph of a block.
fn push_name(alloc: Global, text: &mut Vec<u8>, block: &[u8]) -> Result<(), AllocError> {
    let Ok(paragraphs) = Paragraphs::read(alloc, block) else {
        return Err(AllocError);
    };
    if paragraphs.count() == 0 {
        return Ok(());
    }
    match paragraphs.field(0, b"Package") {
        Some(name) => text.extend_from_slice(name),
        None => text.extend_from_slice(paragraphs.field(0, b"Source").unwrap_or(b"")),
    }
}

/// The one that stands first.
fn first_of(unreadable: &[Unreadable]) -> Option<Unreadable> {
    let mut first: Option<Unreadable> = None;
    for one in unreadable {
        match first {
            Some(other) if other.number <= one.number => {}
            _ => first = Some(*one),
        }
    }
    first
}

/// Puts the name and the fault of the paragraph that cannot be read and stands first behind a text.
fn push_first(
    alloc: Global,
    text: &mut Vec<u8>,
    shelf: &Shelf,
    sources: &SourceShelf,
) -> Result<(), AllocError> {
    let (block, code) = match first_of(shelf.unreadable()) {
        Some(first) => (shelf.block(first.number), first.code),
        None => match first_of(&sources.unreadable) {
            Some(first) => (sources.block(first.number), first.code),
            None => return Ok(()),
        },
    };
    push_name(alloc, text, block)?;
    text.extend_from_slice(b": refused ")?;
    push_number(text, u64::from(code))
}

/// Puts a note on the paragraphs that were looked at and cannot be read behind a text.
fn push_unreadable(
    alloc: Global,
    text: &mut Vec<u8>,
    shelf: &Shelf,
    sources: &SourceShelf,
) -> Result<(), AllocError> {
    let count = shelf
        .unreadable()
        .len()
        .saturating_add(sources.unreadable.len());
    if count == 0 {
        return Ok(());
    }
    text.extend_from_slice(b"note: ")?;
    push_number(text, count as u64)?;
    text.extend_from_slice(
        b" paragraphs that were looked at cannot be read and are passed over, first ",
    )?;
    push_first(alloc, text, shelf, sources)?;
    text.extend_from_slice(b"\n")
}

/// The note on the paragraphs that were looked at and cannot be read: nothing where there are none.
fn unreadable_note(
    alloc: Global,
    shelf: &Shelf,
    sources: &SourceShelf,
) -> Result<Vec<u8>, AllocError> {
    let mut text = Vec::new(alloc);
    push_unreadable(alloc, &mut text, shelf, sources)?;
    Ok(text)
}

/// The notes on paragraphs that cannot be read, and on packages of another architecture.
fn last_notes(
    alloc: Global,
    shelf: &Shelf,
    sources: &SourceShelf,
    told: Told,
) -> Result<Vec<u8>, AllocError> {
    let mut text = unreadable_note(alloc, shelf, sources)?;
    text.extend_from_slice(&foreign_note(alloc, shelf, told)?)?;
    Ok(text)
}

/// Puts the notes on what was taken behind a text: recipes whose packages are those of another
/// version, entries that nothing meets and which source would give what does, how many paragraphs
/// cannot be read, and how many packages are of another architecture.
pub fn push_notes(
    alloc: Global,
    text: &mut Vec<u8>,
    shelf: &mut Shelf,
    sources: &SourceShelf,
    told: Told,
    farm: Farm,
) -> Result<(), AllocError>
    ensures { OnOk result (HasNotes farm.entry.unmet.now text.new.items) }
{
    push_stand_ins(text, &told.read.of.wish.items.recipes, &told.taken.builds)?;
    push_all_unmet(alloc, text, shelf, told.read.of.packages, farm)?;
    let last = last_notes(alloc, shelf, sources, told)?;
    text.extend_from_slice(&last)?;
    Ok(())
}
