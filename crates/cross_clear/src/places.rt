//! Where a package stands in the indexes as they are given.

use cross_laws::types::Side;
use cross_relations::{Binary, Sides};
use deb_fields::{Paragraph, or_text};
use deb_stanza::Paragraphs;
use debian_index::{Block, cut_index};
use import_farm::NamedText;
use std::alloc::Global;

/// An index, and a line of it.
#[derive(Clone, Copy)]
pub struct Place<'a> {
    pub name: &'a str,
    pub line: u32,
}

/// Tells whether a paragraph is of the architecture of a package.
fn is_of_side(sides: &Sides, paragraph: &Paragraph, side: Side) -> bool {
    let architecture = or_text(paragraph.field(b"Architecture"), b"");
    match side {
        Side::Build => architecture == sides.build() || architecture == b"all".as_slice(),
        Side::Host => architecture == sides.host(),
    }
}

/// Tells whether a paragraph is that of a package; where that is one of a further build, in any
/// version.
fn is_of(sides: &Sides, paragraph: &Paragraph, binary: &Binary, is_further: bool) -> bool {
    or_text(paragraph.field(b"Package"), b"") == binary.name()
        && is_of_side(sides, paragraph, binary.side())
        && (is_further || or_text(paragraph.field(b"Version"), b"") == binary.version().text())
}

/// The line of a package in a block.
fn line_in(
    alloc: Global,
    sides: &Sides,
    binary: &Binary,
    is_further: bool,
    block: &[u8],
) -> Option<u32> {
    let Ok(paragraphs) = Paragraphs::read(alloc, block) else {
        return None;
    };
    if paragraphs.count() == 0 {
        return None;
    }
    let paragraph = Paragraph::new(&paragraphs, 0);
    if is_of(sides, &paragraph, binary, is_further) {
        return Some(paragraph.line());
    }
    None
}

/// The line of a package in blocks of an index.
fn line_of(
    alloc: Global,
    sides: &Sides,
    binary: &Binary,
    is_further: bool,
    index: &[u8],
    blocks: &[Block],
) -> Option<u32> {
    for block in blocks {
        let bytes = index.get(block.start..).unwrap_or(b"");
        let bytes = bytes.get(..block.size).unwrap_or(b"");
        if let Some(line) = line_in(alloc, sides, binary, is_further, bytes) {
            return Some(line.saturating_add(block.number.saturating_sub(1)));
        }
    }
    None
}

/// The first place of a package in indexes: of the same version, or of any where it is one of a
/// further build.
fn place_in<'a>(
    alloc: Global,
    sides: &Sides,
    binary: &Binary,
    is_further: bool,
    texts: &[NamedText<'a>],
) -> Option<Place<'a>> {
    for text in texts {
        let Ok(blocks) = cut_index(alloc, text.bytes) else {
            return None;
        };
        let line = line_of(alloc, sides, binary, is_further, text.bytes, &blocks);
        if let Some(line) = line {
            return Some(Place {
                name: text.name,
                line,
            });
        }
    }
    None
}

/// The place of a package in the indexes of what is there at the beginning, or else in those of
/// what builds give.
pub fn place_of<'a>(
    alloc: Global,
    sides: &Sides,
    binary: &Binary,
    archive: &[NamedText<'a>],
    packages: &[NamedText<'a>],
) -> Place<'a> {
    for is_further in [false, true] {
        if let Some(place) = place_in(alloc, sides, binary, is_further, archive) {
            return place;
        }
        if let Some(place) = place_in(alloc, sides, binary, is_further, packages) {
            return place;
        }
    }
    Place {
        name: "packages",
        line: 0,
    }
}
