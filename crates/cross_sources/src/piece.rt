//! The paragraph of a source, encoded: it is written, and then judged as it is read.

ghost use Rattle.std.specs.Prelude.{◌≡◌, [], ◌∷◌, IfOk, OnOk};
ghost use Rattle.deb_stanza.specs.Stanza as stanza;
ghost use Rattle.cross_index.specs.Pieces.{IsReadAs};
ghost use Rattle.cross_sources.specs.EncodedSource.{IsSourceFor};
ghost use Rattle.cross_sources.specs.GivenSource.{given_view};
ghost use Rattle.cross_sources.specs.Relations.{way_of};

use crate::asked::Asked;
use crate::given::GivenSource;
use crate::judge::judge_source;
use crate::list::rows_made;
use crate::relations::made_for;
use crate::rows::{Anew, push_source};
use cross_index::{Unlike, judge_closed, judge_count, unread};
use cross_laws::types::Side;
use cross_relations::{Sense, encoded_name};
use deb_fields::{Paragraph, or_text};
use deb_stanza::Paragraphs;
use std::alloc::{AllocError, Global};

/// What is written of a source in place of what its paragraph has.
fn anew(
    alloc: Global,
    of: Asked,
    side: Side,
    given: &GivenSource,
    paragraph: &Paragraph,
) -> Result<Anew, AllocError> {
    let list = or_text(paragraph.field(b"Package-List"), b"");
    Ok(Anew {
        name: encoded_name(alloc, of.sides, Sense::Of(side), &given.source.name)?,
        list: rows_made(alloc, of, side, list)?,
        relations: made_for(alloc, of, side, &given.relations)?,
    })
}

/// Writes the paragraph of a source, which stands in a block, with an empty line behind it.
fn write_piece(
    alloc: Global,
    of: Asked,
    side: Side,
    given: &GivenSource,
    paragraph: &Paragraph,
    block: &[u8],
) -> Result<Vec<u8>, AllocError> {
    let made = anew(alloc, of, side, given, paragraph)?;
    let mut piece = Vec::new(alloc);
    push_source(alloc, &mut piece, &made, block)?;
    Ok(piece)
}

/// Judges paragraphs, which are to be one, that of a source, encoded.
fn judge_only(
    alloc: Global,
    of: Asked,
    side: Side,
    given: &GivenSource,
    old: &Paragraph,
    news: &Paragraphs,
) -> Result<(), Unlike>
    ensures { OnOk result ((new : stanza.Paragraph) × (news.now ≡ new ∷ [])
        × IsSourceFor (way_of of.entry) side (given_view given.now) old.now new) }
{
    judge_count(news)?;
    let new = Paragraph::new(news, 0);
    judge_source(alloc, of, side, given, old, &new)?;
    Ok(())
}

/// Judges a text, which is to be the paragraph of a source, encoded.
fn judge_piece(
    alloc: Global,
    of: Asked,
    side: Side,
    given: &GivenSource,
    old: &Paragraph,
    piece: &[u8],
) -> Result<(), Unlike>
    ensures { OnOk result
        (IsReadAs (IsSourceFor (way_of of.entry) side (given_view given.now) old.now) piece.now) }
{
    judge_closed(piece)?;
    let news = match Paragraphs::read(alloc, piece) {
        Ok(news) => news,
        Err(fault) => return Err(unread(fault)),
    };
    judge_only(alloc, of, side, given, old, &news)?;
    Ok(())
}

/// The paragraph of a source, encoded for a side, with an empty line behind it.
///
/// # Errors
///
/// [`Unlike::Differs`] where what was written is not read as that: an error of this program.
pub fn encoded_piece(
    alloc: Global,
    of: Asked,
    side: Side,
    given: &GivenSource,
    old: &Paragraph,
    block: &[u8],
) -> Result<Vec<u8>, Unlike>
    ensures { IfOk result (λ piece.
        IsReadAs (IsSourceFor (way_of of.entry) side (given_view given.now) old.now) piece.items) }
{
    let piece = write_piece(alloc, of, side, given, old, block)?;
    judge_piece(alloc, of, side, given, old, &piece)?;
    Ok(piece)
}
