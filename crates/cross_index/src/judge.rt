//! Judging a paragraph that was written, as it is read again.

ghost use Rattle.std.specs.Prelude.{◌≡◌, length, true, OnOk};
ghost use Rattle.std.specs.Option.{option_map};
ghost use Rattle.deb_stanza.specs.Stanza.{value_of};
ghost use Rattle.cross_index.specs.EncodedPackage.{Says};
ghost use Rattle.cross_index.specs.Pieces.{is_closed};

use crate::reading::read_field;
use cross_relations::{has_same, is_same_value};
use deb_fields::Paragraph;
use deb_relation::{Kind, RelationError, Relations};
use deb_stanza::{Fault, Paragraphs};
use deb_text::MEMORY;
use std::alloc::{AllocError, Global};

/// Why what was written is not taken.
#[derive(Clone, Copy)]
pub enum Unlike {
    /// Memory was refused.
    OutOfMemory,
    /// It is not read as it should be.
    Differs,
}

impl From<AllocError> for Unlike {
    fn from(_error: AllocError) -> Unlike {
        Unlike::OutOfMemory
    }
}

/// Judges a value, which is to be another one.
pub fn judge_value(new: Option<&[u8]>, wanted: Option<&[u8]>) -> Result<(), Unlike>
    ensures { OnOk result
        (option_map (λ v. v.now) new.entry ≡ option_map (λ v. v.now) wanted.entry) }
{
    if is_same_value(new, wanted) {
        return Ok(());
    }
    Err(Unlike::Differs)
}

/// Judges a field, which is to have the value that one of the given paragraph has.
pub fn judge_field(
    old: &Paragraph,
    name: &[u8],
    new: &Paragraph,
    other: &[u8],
) -> Result<(), Unlike>
    ensures { OnOk result (value_of new.now other.now ≡ value_of old.now name.now) }
{
    judge_value(new.field(other), old.field(name))?;
    Ok(())
}

/// Judges a field of relations, which is to say these entries.
pub fn judge_says(
    alloc: Global,
    paragraph: &Paragraph,
    kind: Kind,
    name: &[u8],
    made: &Relations,
) -> Result<(), Unlike>
    ensures { OnOk result (Says paragraph.now kind name.now made.now) }
{
    match read_field(alloc, kind, paragraph, name) {
        Ok(given) => {
            if has_same(given.entries(), made.entries()) {
                return Ok(());
            }
            Err(Unlike::Differs)
        }
        Err(error) => Err(unlike_of(error)),
    }
}

/// Why a field is not taken that is not read.
fn unlike_of(error: RelationError) -> Unlike {
    if error.code == MEMORY {
        return Unlike::OutOfMemory;
    }
    Unlike::Differs
}

/// Why a text is not taken that is not read.
pub fn unread(fault: Fault) -> Unlike {
    if fault == Fault::MEMORY {
        return Unlike::OutOfMemory;
    }
    Unlike::Differs
}

/// Judges paragraphs, which are to be one.
pub fn judge_count(news: &Paragraphs) -> Result<(), Unlike>
    ensures { OnOk result (length news.now ≡ 1) }
{
    if news.count() == 1 {
        return Ok(());
    }
    Err(Unlike::Differs)
}

/// Judges a text, which is to end in an empty line.
pub fn judge_closed(piece: &[u8]) -> Result<(), Unlike>
    ensures { OnOk result (is_closed piece.now ≡ true) }
{
    if piece.ends_with(b"\n\n") {
        return Ok(());
    }
    Err(Unlike::Differs)
}
