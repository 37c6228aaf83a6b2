//! A Packages index, encoded.

ghost use Rattle.std.specs.Prelude.{◌≡◌, None, Ok, IfOk, MatchOption, OnOk};
ghost use Rattle.std.specs.List.{flat_map};
ghost use Rattle.debian_index.specs.Index.{AreBlocks, IsBlock, paragraphs_in};
ghost use Rattle.cross_index.specs.EncodedIndex.{IsEncodedBy, IsEncodedIndex, IsKeptAs, IsPiece};
ghost use Rattle.cross_index.specs.Pieces.{AreMade, GetsBehind};
ghost use Rattle.cross_index.specs.Reading.{kept_at};

use crate::piece::encoded_piece;
use crate::reading::read_kept;
use crate::stop::{IndexStop, stop_at, stop_of, stop_unlike};
use cross_relations::{Binary, Sides};
use deb_fields::Paragraph;
use deb_stanza::Paragraphs;
use debian_index::{Block, cut_index, read_block};
use std::alloc::Global;

/// An encoded index, and how many of its paragraphs are of packages of neither architecture.
#[derive(Drop)]
pub struct EncodedIndex {
    pub text: Vec<u8>,
    pub passed: u64,
}

/// The paragraph of a package that was read, encoded.
fn piece_of_package(
    alloc: Global,
    sides: &Sides,
    is_archive: bool,
    binary: &Binary,
    paragraph: &Paragraph,
    block: &[u8],
) -> Result<Vec<u8>, IndexStop>
    ensures { IfOk result
        (λ piece. IsPiece sides.now is_archive binary.now paragraph.now piece.items) }
{
    match encoded_piece(alloc, sides, is_archive, binary, paragraph, block) {
        Ok(piece) => Ok(piece),
        Err(unlike) => Err(stop_unlike(unlike, paragraph.line())),
    }
}

/// What a paragraph comes to: none where it is left out.
fn piece_of(
    alloc: Global,
    sides: &Sides,
    is_archive: bool,
    paragraph: &Paragraph,
    block: &[u8],
) -> Result<Option<Vec<u8>>, IndexStop>
    ensures { IfOk result (λ made. MatchOption made (kept_at sides.now paragraph.now ≡ Ok None)
        (λ piece. IsKeptAs sides.now is_archive paragraph.now piece.items)) }
{
    let kept = match read_kept(alloc, sides, paragraph) {
        Ok(kept) => kept,
        Err(error) => return Err(stop_of(alloc, sides, paragraph, error)),
    };
    let Some(binary) = kept else {
        return Ok(None);
    };
    let piece = piece_of_package(alloc, sides, is_archive, &binary, paragraph, block)?;
    Ok(Some(piece))
}

/// Puts what a paragraph comes to behind a text, and tells how many packages are passed over.
fn push_paragraph(
    alloc: Global,
    text: &mut Vec<u8>,
    sides: &Sides,
    is_archive: bool,
    paragraph: &Paragraph,
    block: &[u8],
) -> Result<u64, IndexStop>
    ensures { OnOk result (GetsBehind (IsEncodedBy sides.now is_archive paragraph.now)
        text.old.items text.new.items) }
{
    let made = piece_of(alloc, sides, is_archive, paragraph, block)?;
    let Some(piece) = made else {
        return Ok(u64::from(paragraph.field(b"Package").is_some()));
    };
    text.extend_from_slice(&piece)?;
    Ok(0)
}

/// Puts what the paragraphs of a block come to behind a text, likewise.
fn push_paragraphs(
    alloc: Global,
    text: &mut Vec<u8>,
    sides: &Sides,
    is_archive: bool,
    paragraphs: &Paragraphs,
    block: &[u8],
) -> Result<u64, IndexStop>
    ensures { OnOk result (GetsBehind (AreMade (IsEncodedBy sides.now is_archive) paragraphs.now)
        text.old.items text.new.items) }
{
    let mut passed: u64 = 0;
    for at in 0..paragraphs.count() {
        let paragraph = Paragraph::new(paragraphs, at);
        let more = push_paragraph(alloc, text, sides, is_archive, &paragraph, block)?;
        passed = passed.saturating_add(more);
    }
    Ok(passed)
}

/// Puts what a block of an index comes to behind a text, likewise.
fn push_block(
    alloc: Global,
    text: &mut Vec<u8>,
    sides: &Sides,
    is_archive: bool,
    index: &[u8],
    block: &Block,
) -> Result<u64, IndexStop>
    requires { IsBlock index.now block.now }
    ensures { OnOk result (GetsBehind
        (AreMade (IsEncodedBy sides.now is_archive) (paragraphs_in index.now block.now))
        text.old.items text.new.items) }
{
    let bytes = block.bytes(index);
    let paragraphs = match read_block(alloc, block.number, bytes) {
        Ok(paragraphs) => paragraphs,
        Err(fault) => return Err(stop_at(alloc, fault)),
    };
    match push_paragraphs(alloc, text, sides, is_archive, &paragraphs, bytes) {
        Ok(passed) => Ok(passed),
        Err(stop) => Err(stop.below(block.number.saturating_sub(1))),
    }
}

/// Puts what the blocks of an index come to behind a text, likewise.
fn push_blocks(
    alloc: Global,
    text: &mut Vec<u8>,
    sides: &Sides,
    is_archive: bool,
    index: &[u8],
    blocks: &[Block],
) -> Result<u64, IndexStop>
    requires { AreBlocks index.now blocks.now }
    ensures { OnOk result (GetsBehind
        (AreMade (IsEncodedBy sides.now is_archive)
        (flat_map (paragraphs_in index.now) blocks.now))
        text.old.items text.new.items) }
{
    let mut passed: u64 = 0;
    for block in blocks {
        let more = push_block(alloc, text, sides, is_archive, index, block)?;
        passed = passed.saturating_add(more);
    }
    Ok(passed)
}

/// Encodes a Packages index. `is_archive` says whether its packages are there at the beginning: those
/// of the host are not Essential then.
///
/// Each paragraph of a package of either architecture becomes one of the encoded name, with the
/// needs of the package and what it provides. What it excludes is carried along as it was given,
/// since that depends on what else there is. Other paragraphs are left out.
///
/// # Errors
///
/// [`IndexStop::Refused`] with the first fault of the form of the text, as `cut_index` tells it; else
/// with that of the first paragraph that cannot be read: 707 where a name is taken, 201 or 202 where
/// Architecture is absent or Multi-Arch has none of its values, and the codes of its other fields.
/// [`IndexStop::Unlike`] where what was written is not read as the package: an error of this program.
pub fn encode_packages(
    alloc: Global,
    sides: &Sides,
    is_archive: bool,
    index: &[u8],
) -> Result<EncodedIndex, IndexStop>
    ensures { IfOk result
        (λ made. IsEncodedIndex sides.now is_archive index.now made.text.items) }
{
    let blocks = match cut_index(alloc, index) {
        Ok(blocks) => blocks,
        Err(fault) => return Err(stop_at(alloc, fault)),
    };
    let mut text = Vec::new(alloc);
    let passed = push_blocks(alloc, &mut text, sides, is_archive, index, &blocks)?;
    Ok(EncodedIndex { text, passed })
}
