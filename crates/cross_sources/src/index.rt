//! A Sources index, encoded.

ghost use Rattle.std.specs.Prelude.{◌≡◌, ◌&&◌, false, Ok, IfOk, OnOk};
ghost use Rattle.std.specs.List.{flat_map};
ghost use Rattle.std.specs.Str.{bytes_eq};
ghost use Rattle.cross_laws.specs.Binary.{is_side};
ghost use Rattle.debian_index.specs.Index.{AreBlocks, IsBlock, paragraphs_in};
ghost use Rattle.cross_index.specs.Pieces.{AreMade, GetsBehind, IsReadAs};
ghost use Rattle.cross_sources.specs.EncodedSource.{AreEncodedSources, IsKeptFor, IsMadeFor, IsMadeOf, IsSourceFor, is_wanted};
ghost use Rattle.cross_sources.specs.GivenSource.{given_source_at, given_view, name_of, name_taken};
ghost use Rattle.cross_sources.specs.Relations.{way_of};

use crate::asked::{Asked, WantedSource};
use crate::given::{GivenSource, name_of, read_given_source};
use crate::piece::encoded_piece;
use crate::stop::source_stop;
use cross_index::{IndexStop, TAKEN_NAME, stop_at, stop_unlike};
use cross_laws::types::Side;
use cross_relations::is_taken;
use deb_fields::Paragraph;
use deb_relation::RelationError;
use deb_stanza::Paragraphs;
use debian_index::{Block, cut_index, read_block};
use std::alloc::{AllocError, Global};

/// A source that was encoded for a side, as it was given, and its line there.
#[derive(Drop)]
pub struct KeptSource {
    pub given: GivenSource,
    pub side: Side,
    pub line: u32,
}

/// An encoded index, and the sources that it has.
#[derive(Drop)]
pub struct EncodedSources {
    pub text: Vec<u8>,
    pub kept: Vec<KeptSource>,
}

fn is_side(a: Side, b: Side) -> bool
    ensures { result ≡ is_side a b }
{
    match a {
        Side::Build => match b {
            Side::Build => true,
            Side::Host => false,
        },
        Side::Host => match b {
            Side::Build => false,
            Side::Host => true,
        },
    }
}

fn is_one(wanted: &WantedSource, side: Side, name: &[u8]) -> bool
    ensures { result ≡ (is_side wanted.now.side side && bytes_eq wanted.now.name.items name.now) }
{
    is_side(wanted.side, side) && wanted.name.as_slice() == name
}

/// Tells whether a source is wanted for a side.
fn is_wanted(of: Asked, side: Side, name: &[u8]) -> bool
    ensures { result ≡ is_wanted (way_of of.entry) side name.now }
{
    of.wanted.iter().any(|wanted| is_one(wanted, side, name))
}

/// The paragraph of a source that was read, encoded for a side.
fn piece_of_source(
    alloc: Global,
    of: Asked,
    side: Side,
    given: &GivenSource,
    paragraph: &Paragraph,
    block: &[u8],
) -> Result<Vec<u8>, IndexStop>
    ensures { IfOk result (λ piece. IsReadAs
        (IsSourceFor (way_of of.entry) side (given_view given.now) paragraph.now) piece.items) }
{
    match encoded_piece(alloc, of, side, given, paragraph, block) {
        Ok(piece) => Ok(piece),
        Err(unlike) => Err(stop_unlike(unlike, paragraph.line())),
    }
}

fn read_source(alloc: Global, of: Asked, paragraph: &Paragraph) -> Result<GivenSource, IndexStop>
    ensures { IfOk result (λ given.
        given_source_at of.entry.sides.now paragraph.now ≡ Ok (given_view given)) }
{
    match read_given_source(alloc, of.sides, paragraph) {
        Ok(given) => Ok(given),
        Err(error) => Err(source_stop(alloc, of.sides, paragraph, error)),
    }
}

fn keep(
    made: &mut EncodedSources,
    given: GivenSource,
    side: Side,
    line: u32,
) -> Result<(), AllocError>
    ensures { OnOk result (made.new.text ≡ made.old.text) }
{
    made.kept.push(KeptSource { given, side, line })?;
    Ok(())
}

/// Puts the source of a paragraph, encoded for a side, behind others.
fn push_kept(
    alloc: Global,
    made: &mut EncodedSources,
    of: Asked,
    side: Side,
    paragraph: &Paragraph,
    block: &[u8],
) -> Result<(), IndexStop>
    ensures { OnOk result (GetsBehind (IsKeptFor (way_of of.entry) side paragraph.now)
        made.old.text.items made.new.text.items) }
{
    let given = read_source(alloc, of, paragraph)?;
    let piece = piece_of_source(alloc, of, side, &given, paragraph, block)?;
    made.text.extend_from_slice(&piece)?;
    keep(made, given, side, paragraph.line())?;
    Ok(())
}

/// Puts what a paragraph comes to for a side behind others.
fn push_side(
    alloc: Global,
    made: &mut EncodedSources,
    of: Asked,
    side: Side,
    paragraph: &Paragraph,
    block: &[u8],
) -> Result<(), IndexStop>
    ensures { OnOk result (GetsBehind (IsMadeFor (way_of of.entry) side paragraph.now)
        made.old.text.items made.new.text.items) }
{
    if is_wanted(of, side, name_of(paragraph)) {
        push_kept(alloc, made, of, side, paragraph, block)?;
        return Ok(());
    }
    Ok(())
}

/// Refuses a source whose name is taken.
fn judge_name(alloc: Global, of: Asked, paragraph: &Paragraph) -> Result<(), IndexStop>
    ensures { OnOk result (name_taken of.entry.sides.now paragraph.now ≡ false) }
{
    if is_taken(of.sides, name_of(paragraph)) {
        let error = RelationError { code: TAKEN_NAME };
        return Err(source_stop(alloc, of.sides, paragraph, error));
    }
    Ok(())
}

/// Puts what a paragraph comes to behind others.
fn push_paragraph(
    alloc: Global,
    made: &mut EncodedSources,
    of: Asked,
    paragraph: &Paragraph,
    block: &[u8],
) -> Result<(), IndexStop>
    ensures { OnOk result (GetsBehind (IsMadeOf (way_of of.entry) paragraph.now)
        made.old.text.items made.new.text.items) }
{
    judge_name(alloc, of, paragraph)?;
    push_side(alloc, made, of, Side::Build, paragraph, block)?;
    push_side(alloc, made, of, Side::Host, paragraph, block)?;
    Ok(())
}

/// Puts what the paragraphs of a block come to behind others.
fn push_paragraphs(
    alloc: Global,
    made: &mut EncodedSources,
    of: Asked,
    paragraphs: &Paragraphs,
    block: &[u8],
) -> Result<(), IndexStop>
    ensures { OnOk result (GetsBehind (AreMade (IsMadeOf (way_of of.entry)) paragraphs.now)
        made.old.text.items made.new.text.items) }
{
    for at in 0..paragraphs.count() {
        let paragraph = Paragraph::new(paragraphs, at);
        push_paragraph(alloc, made, of, &paragraph, block)?;
    }
    Ok(())
}

/// Tells the lines of sources from a number on in the whole index.
fn move_lines(kept: &mut [KeptSource], from: usize, lines: u32) {
    for at in from..kept.len() {
        kept[at].line = kept[at].line.saturating_add(lines);
    }
}

/// Puts what a block of an index comes to behind others.
fn push_block(
    alloc: Global,
    made: &mut EncodedSources,
    of: Asked,
    index: &[u8],
    block: &Block,
) -> Result<(), IndexStop>
    requires { IsBlock index.now block.now }
    ensures { OnOk result (GetsBehind
        (AreMade (IsMadeOf (way_of of.entry)) (paragraphs_in index.now block.now))
        made.old.text.items made.new.text.items) }
{
    let bytes = block.bytes(index);
    let paragraphs = match read_block(alloc, block.number, bytes) {
        Ok(paragraphs) => paragraphs,
        Err(fault) => return Err(stop_at(alloc, fault)),
    };
    let (from, lines) = (made.kept.len(), block.number.saturating_sub(1));
    match push_paragraphs(alloc, made, of, &paragraphs, bytes) {
        Ok(()) => {
            move_lines(&mut made.kept, from, lines);
            Ok(())
        }
        Err(stop) => Err(stop.below(lines)),
    }
}

/// Puts what the blocks of an index come to behind others.
fn push_blocks(
    alloc: Global,
    made: &mut EncodedSources,
    of: Asked,
    index: &[u8],
    blocks: &[Block],
) -> Result<(), IndexStop>
    requires { AreBlocks index.now blocks.now }
    ensures { OnOk result (GetsBehind
        (AreMade (IsMadeOf (way_of of.entry)) (flat_map (paragraphs_in index.now) blocks.now))
        made.old.text.items made.new.text.items) }
{
    for block in blocks {
        push_block(alloc, made, of, index, block)?;
    }
    Ok(())
}

/// Encodes the sources of an index that are wanted, each for the sides for which it is. Others are
/// left out.
///
/// # Errors
///
/// [`IndexStop::Refused`] with the first fault of the form of the text, as `cut_index` tells it; else
/// with that of the first paragraph that has one: 707 where its name is taken, and where it is wanted
/// the first fault of its name, its version and its build relations, then 707 where a name in one of
/// these is taken. [`IndexStop::Unlike`] where what was written is not read as the source: an error
/// of this program.
pub fn encode_sources(alloc: Global, of: Asked, index: &[u8]) -> Result<EncodedSources, IndexStop>
    ensures { IfOk result
        (λ made. AreEncodedSources (way_of of.entry) index.now made.text.items) }
{
    let blocks = match cut_index(alloc, index) {
        Ok(blocks) => blocks,
        Err(fault) => return Err(stop_at(alloc, fault)),
    };
    let mut made = EncodedSources {
        text: Vec::new(alloc),
        kept: Vec::new(alloc),
    };
    push_blocks(alloc, &mut made, of, index, &blocks)?;
    Ok(made)
}
