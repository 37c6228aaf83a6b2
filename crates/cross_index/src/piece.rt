//! The paragraph of a binary, encoded: it is written, and then judged as it is read.

ghost use Rattle.std.specs.Prelude.{◌≡◌, [], ◌∷◌, IfOk, OnOk};
ghost use Rattle.deb_stanza.specs.Stanza as stanza;
ghost use Rattle.cross_index.specs.EncodedIndex.{IsPiece};
ghost use Rattle.cross_index.specs.EncodedPackage.{IsEncodedAs};

use crate::encoded_package::{encoded_source, judge_encoded};
use crate::judge::{Unlike, judge_closed, judge_count, unread};
use crate::rows::{Anew, push_rows};
use cross_laws::types::Side;
use cross_relations::{
    Asker, Binary, Sense, Sides, encode_needs, encode_provides, encoded_name, push_field,
};
use deb_fields::{Paragraph, or_text};
use deb_stanza::Paragraphs;
use std::alloc::{AllocError, Global};

fn has_colon(value: Option<&[u8]>) -> bool {
    or_text(value, b"").contains(&b':')
}

fn is_host(side: Side) -> bool {
    match side {
        Side::Build => false,
        Side::Host => true,
    }
}

/// What is written of a package in place of what its paragraph has.
fn anew(
    alloc: Global,
    sides: &Sides,
    is_archive: bool,
    binary: &Binary,
    paragraph: &Paragraph,
) -> Result<Anew, AllocError> {
    let side = binary.side();
    let source = or_text(paragraph.field(b"Source"), b"");
    Ok(Anew {
        name: encoded_name(alloc, sides, Sense::Of(side), binary.name())?,
        source: encoded_source(alloc, sides, side, source)?,
        side,
        is_essential_left_out: is_archive && is_host(side),
        has_named_pre_depends: has_colon(paragraph.field(b"Pre-Depends")),
        has_named_depends: has_colon(paragraph.field(b"Depends")),
    })
}

/// Puts the encoded relations of a package behind a text.
fn push_relations(
    alloc: Global,
    text: &mut Vec<u8>,
    sides: &Sides,
    binary: &Binary,
) -> Result<(), AllocError> {
    let at = Asker {
        side: binary.side(),
        is_build: false,
    };
    let pre_depends = encode_needs(alloc, sides, at, binary.pre_depends())?;
    push_field(alloc, text, b"Pre-Depends", &pre_depends)?;
    let depends = encode_needs(alloc, sides, at, binary.depends())?;
    push_field(alloc, text, b"Depends", &depends)?;
    let provides = encode_provides(alloc, sides, binary)?;
    push_field(alloc, text, b"Provides", &provides)
}

/// Writes the paragraph of a binary, which stands in a block, with an empty line behind it.
fn write_piece(
    alloc: Global,
    sides: &Sides,
    is_archive: bool,
    binary: &Binary,
    paragraph: &Paragraph,
    block: &[u8],
) -> Result<Vec<u8>, AllocError> {
    let of = anew(alloc, sides, is_archive, binary, paragraph)?;
    let mut piece = Vec::new(alloc);
    push_rows(&mut piece, sides, &of, block)?;
    push_relations(alloc, &mut piece, sides, binary)?;
    piece.extend_from_slice(b"\n")?;
    Ok(piece)
}

/// Judges paragraphs, which are to be one, that of a package, encoded.
fn judge_only(
    alloc: Global,
    sides: &Sides,
    is_archive: bool,
    binary: &Binary,
    old: &Paragraph,
    news: &Paragraphs,
) -> Result<(), Unlike>
    ensures { OnOk result ((new : stanza.Paragraph) × (news.now ≡ new ∷ [])
        × IsEncodedAs sides.now is_archive binary.now old.now new) }
{
    judge_count(news)?;
    let new = Paragraph::new(news, 0);
    judge_encoded(alloc, sides, is_archive, binary, old, &new)?;
    Ok(())
}

/// Judges a text, which is to be the paragraph of a package, encoded.
fn judge_piece(
    alloc: Global,
    sides: &Sides,
    is_archive: bool,
    binary: &Binary,
    old: &Paragraph,
    piece: &[u8],
) -> Result<(), Unlike>
    ensures { OnOk result (IsPiece sides.now is_archive binary.now old.now piece.now) }
{
    judge_closed(piece)?;
    let news = match Paragraphs::read(alloc, piece) {
        Ok(news) => news,
        Err(fault) => return Err(unread(fault)),
    };
    judge_only(alloc, sides, is_archive, binary, old, &news)?;
    Ok(())
}

/// The paragraph of a package, encoded, with an empty line behind it.
///
/// # Errors
///
/// [`Unlike::Differs`] where what was written is not read as that: an error of this program.
pub fn encoded_piece(
    alloc: Global,
    sides: &Sides,
    is_archive: bool,
    binary: &Binary,
    old: &Paragraph,
    block: &[u8],
) -> Result<Vec<u8>, Unlike>
    ensures { IfOk result
        (λ piece. IsPiece sides.now is_archive binary.now old.now piece.items) }
{
    let piece = write_piece(alloc, sides, is_archive, binary, old, block)?;
    judge_piece(alloc, sides, is_archive, binary, old, &piece)?;
    Ok(piece)
}
