//! What is gathered of the sources and the packages, piece by piece, so that never more than a piece
//! is held: what sources say of the farm text, and the packages that lack what a farm is judged by.

use crate::recipes::{RecipeSource, recipe_sources, source_name};
use crate::restricting::SourceWords;
use crate::warning::push_warning;
use deb_profile::ArchNames;
use deb_stanza::{MOST_BYTES, Paragraphs};
use deb_text::Fault;
use debian_index::Pieces;
use explain_faults::Piece::Number;
use explain_faults::{Paragraph, Pushed};
use std::alloc::{AllocError, Global};

/// What is gathered of paragraphs, one after the other.
trait Gather {
    /// Notes one more paragraph, which begins at this line of its text.
    fn note(&mut self, alloc: Global, line: u64, paragraph: Paragraph<'_>) -> Pushed;
}

/// Notes the paragraphs of a piece, above which so many lines stand.
fn note_piece<G: Gather>(alloc: Global, found: &mut G, above: u32, among: &Paragraphs) -> Pushed {
    for place in 0..among.count() {
        let paragraph = Paragraph { among, place };
        let line = u64::from(paragraph.line()) + u64::from(above);
        found.note(alloc, line, paragraph)?;
    }
    Ok(())
}

/// Notes the paragraphs of a text, which was read and so has no fault.
fn note_all<G: Gather>(alloc: Global, found: &mut G, text: &[u8]) -> Pushed {
    if text.len() > MOST_BYTES {
        return Ok(());
    }
    let mut pieces = Pieces::of(text);
    loop {
        match pieces.next(alloc) {
            Ok(Some((above, piece))) => note_piece(alloc, found, above, &piece)?,
            Ok(None) => return Ok(()),
            Err(fault) if fault == Fault::MEMORY => return Err(AllocError),
            Err(_) => return Ok(()),
        }
    }
}

/// What sources say of a farm text: the words that restrict them, and what those list that its
/// recipes name.
#[derive(Drop)]
pub struct SourceNotes<'a> {
    pub words: SourceWords,
    pub recipes: Vec<RecipeSource<'a>>,
}

impl Gather for SourceNotes<'_> {
    fn note(&mut self, alloc: Global, line: u64, paragraph: Paragraph<'_>) -> Pushed {
        self.words.note(alloc, line, paragraph)?;
        let name = source_name(paragraph);
        for recipe in self.recipes.iter_mut() {
            recipe.look(alloc, name, paragraph)?;
        }
        Ok(())
    }
}

/// What a sources text says of a farm text and of these words.
pub fn source_notes<'a>(
    alloc: Global,
    farm: &'a Paragraphs,
    words: SourceWords,
    sources: &[u8],
) -> Result<SourceNotes<'a>, AllocError> {
    let recipes = recipe_sources(alloc, farm)?;
    let mut notes = SourceNotes { words, recipes };
    note_all(alloc, &mut notes, sources)?;
    Ok(notes)
}

/// How many paragraphs were found, and the line of the first of them.
#[derive(Clone, Copy)]
struct Found {
    count: u64,
    line: u64,
}

impl Found {
    /// Counts one more, which begins at this line.
    fn add(&mut self, line: u64) {
        if self.count == 0 {
            self.line = line;
        }
        self.count = self.count.saturating_add(1);
    }

    /// Puts a warning of them behind others, if there are any, in these words: with the line for
    /// `%0` and the count for `%1`.
    fn push(self, lines: &mut Vec<u8>, words: &[u8]) -> Pushed {
        if self.count == 0 {
            return Ok(());
        }
        push_warning(lines, words, &[Number(self.line), Number(self.count)])
    }
}

/// The packages without an `Installed-Size`, and those with an architecture that is none of these
/// names.
#[derive(Clone, Copy)]
struct Lacking<'a> {
    names: &'a ArchNames,
    sizes: Found,
    architectures: Found,
}

impl Gather for Lacking<'_> {
    fn note(&mut self, _alloc: Global, line: u64, paragraph: Paragraph<'_>) -> Pushed {
        if !paragraph.has(b"Installed-Size") {
            self.sizes.add(line);
        }
        if let Some(name) = paragraph.value(b"Architecture") {
            if name != b"all".as_slice() && !self.names.matches(name) {
                self.architectures.add(line);
            }
        }
        Ok(())
    }
}

/// Puts a warning of the packages without an `Installed-Size` behind others, and one of those whose
/// architecture the farm does not name.
pub fn push_packages(
    alloc: Global,
    lines: &mut Vec<u8>,
    names: &ArchNames,
    packages: &[u8],
) -> Pushed {
    let none = Found { count: 0, line: 0 };
    let mut lacking = Lacking {
        names,
        sizes: none,
        architectures: none,
    };
    note_all(alloc, &mut lacking, packages)?;
    let words = b"packages line %0: %1 packages have no Installed-Size, the first one here";
    lacking.sizes.push(lines, words)?;
    let words =
        b"packages line %0: %1 packages have an architecture that the farm does not name, the first one here";
    lacking.architectures.push(lines, words)
}
