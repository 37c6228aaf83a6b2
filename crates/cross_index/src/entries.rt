//! Entries that somebody asks for on the architecture on which is built.

ghost use Rattle.std.specs.Prelude.{IfOk, IsTrue};
ghost use Rattle.cross_index.specs.Seen.{IsSeen, IsSeenAs};

use crate::error::TAKEN_NAME;
use crate::reading::has_taken;
use cross_laws::types::Side;
use cross_relations::{Asker, Sides, encode_needs, has_same, push_entries};
use deb_relation::{Kind, RelationError, Relations};
use deb_text::MEMORY;
use std::alloc::{AllocError, Global};

/// Why entries are not encoded.
#[derive(Clone, Copy)]
pub enum EntriesStop {
    /// Memory was refused.
    OutOfMemory,
    /// The text is refused with this code.
    Refused(u16),
    /// What was written is not read as these entries: an error of this program.
    Unlike,
}

impl From<AllocError> for EntriesStop {
    fn from(_error: AllocError) -> EntriesStop {
        EntriesStop::OutOfMemory
    }
}

impl From<RelationError> for EntriesStop {
    fn from(error: RelationError) -> EntriesStop {
        if error.code == MEMORY {
            return EntriesStop::OutOfMemory;
        }
        EntriesStop::Refused(error.code)
    }
}

/// Writes the entries of a field.
fn written(alloc: Global, field: &Relations) -> Result<Vec<u8>, AllocError> {
    let mut text = Vec::new(alloc);
    push_entries(alloc, &mut text, b"", field.entries())?;
    Ok(text)
}

/// Tells whether a text is known to be read as these entries.
fn is_seen_as(alloc: Global, text: &[u8], made: &Relations) -> Result<bool, EntriesStop>
    ensures { IfOk result (λ is. IsTrue is → IsSeenAs text.now made.now) }
{
    let given = Relations::parse(alloc, text, Kind::Need)?;
    Ok(has_same(given.entries(), made.entries()))
}

/// Encodes the entries of a text, as a build on the architecture on which is built asks for them:
/// `libc6` is that of this architecture, and `libc6:riscv64` that of the host.
///
/// # Errors
///
/// [`EntriesStop::Refused`] with the code of the first fault of the text, as
/// [`Relations::parse`] tells it; then with 707 where a name is taken. [`EntriesStop::Unlike`] where
/// what was written is not read as the encoded entries: an error of this program.
pub fn encode_entries(alloc: Global, sides: &Sides, text: &[u8]) -> Result<Vec<u8>, EntriesStop>
    ensures { IfOk result (λ made. IsSeen sides.now text.now made.items) }
{
    let field = Relations::parse(alloc, text, Kind::Need)?;
    if has_taken(sides, &field) {
        return Err(EntriesStop::Refused(TAKEN_NAME));
    }
    let at = Asker {
        side: Side::Build,
        is_build: true,
    };
    let seen = encode_needs(alloc, sides, at, &field)?;
    let made = written(alloc, &seen)?;
    if !is_seen_as(alloc, &made, &seen)? {
        return Err(EntriesStop::Unlike);
    }
    Ok(made)
}
