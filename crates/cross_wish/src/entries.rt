//! Entries of a wish, which somebody on the architecture on which is built asks for.

ghost use Rattle.std.specs.Prelude.{◌≡◌, IfOk};
ghost use Rattle.deb_text.specs.Common.{Gives};
ghost use Rattle.deb_relation.specs.View.{refusal_of};
ghost use Rattle.cross_laws.specs.Encoding.{encoded_needs};
ghost use Rattle.cross_index.specs.Seen.{by_build};
ghost use Rattle.cross_wish.specs.Wish.{free_at, seen_at};

use cross_index::{TAKEN_NAME, has_taken};
use cross_laws::types::Side;
use cross_relations::{Asker, Sides, encode_needs, push_entries};
use deb_relation::{Kind, RelationError, Relations};
use std::alloc::{AllocError, Global};

/// Refuses entries of which a name is taken.
pub fn judge_free(sides: &Sides, entries: &Relations) -> Result<(), RelationError>
    ensures { Gives refusal_of (λ _. tt) result (free_at sides.now entries.now) }
{
    if has_taken(sides, entries) {
        return Err(RelationError { code: TAKEN_NAME });
    }
    Ok(())
}

/// Reads entries.
///
/// # Errors
///
/// Their first fault; then [`TAKEN_NAME`] where a name is taken.
pub fn read_entries(alloc: Global, sides: &Sides, text: &[u8]) -> Result<Relations, RelationError>
    ensures { Gives refusal_of (λ entries. entries) result (seen_at sides.now text.now) }
{
    let entries = Relations::parse(alloc, text, Kind::Need)?;
    judge_free(sides, &entries)?;
    Ok(entries)
}

/// Encodes entries.
pub fn seen(alloc: Global, sides: &Sides, entries: &Relations) -> Result<Relations, AllocError>
    ensures { IfOk result (λ made. made ≡ encoded_needs sides.now by_build entries.now) }
{
    let at = Asker {
        side: Side::Build,
        is_build: true,
    };
    encode_needs(alloc, sides, at, entries)
}

/// Puts a field with encoded entries behind a text.
pub fn push_seen(
    alloc: Global,
    text: &mut Vec<u8>,
    sides: &Sides,
    name: &[u8],
    entries: &Relations,
) -> Result<(), AllocError> {
    let made = seen(alloc, sides, entries)?;
    text.extend_from_slice(name)?;
    text.extend_from_slice(b":")?;
    push_entries(alloc, text, b" ", made.entries())?;
    text.extend_from_slice(b"\n")
}
