//! Entries of which no more is kept than is left of them.

ghost use Rattle.std.specs.Prelude.{◌≡◌, ◌++◌, IfOk, OnOk};
ghost use Rattle.std.specs.List.{slice_split};
ghost use Rattle.deb_text.specs.Common.{Gives, is_byte, traverse};
ghost use Rattle.deb_relation.specs.Common.{alternative_at, entry_at, bar, refusal_of};
ghost use Rattle.deb_profile.specs.Reduction.{atoms_left, bare, left_of};
ghost use Rattle.deb_profile.specs.Restriction.{is_among};

use crate::reduction::bare;
use crate::word_list::{ArchNames, ProfileSet};
use deb_relation::{ALTERNATIVES, Atom, Entry, Host, Kind, RelationError};
use deb_text::{cut_at_first, next_part};
use std::alloc::{AllocError, Global};

/// A farm, as restrictions are held against it.
#[derive(Drop)]
struct Farm<'a> {
    names: &'a ArchNames,
    active: &'a ProfileSet,
}

impl Host for Farm<'_> {
    ghost is_arch = { λ farm. is_among farm.names.now };

    ghost is_active = { λ farm. is_among farm.active.now };

    fn matches(&self, name: &[u8]) -> bool {
        self.names.matches(name)
    }

    fn has_profile(&self, profile: &[u8]) -> bool {
        self.active.is_active(profile)
    }
}

/// An alternative without restrictions, and without a qualifier that means nothing.
fn strip(alloc: Global, names: &ArchNames, atom: Atom) -> Result<Atom, AllocError>
    ensures { IfOk result (λ left. left ≡ bare names.now atom) }
{
    // most have no qualifier
    if atom.is_bare() {
        return Ok(atom);
    }
    bare(alloc, names, &atom)
}

/// Puts an alternative that stays, if one does, behind others.
fn push_kept(
    alloc: Global,
    kept: &mut Vec<Atom>,
    names: &ArchNames,
    left: Option<Atom>,
) -> Result<(), AllocError>
    ensures { OnOk result (kept.new.items ≡ kept.old.items ++ atoms_left names.now left) }
{
    if let Some(atom) = left {
        kept.push(strip(alloc, names, atom)?)?;
    }
    Ok(())
}

/// Reads alternatives, and keeps what is left of them.
fn read_kept(
    alloc: Global,
    text: &[u8],
    kind: Kind,
    names: &ArchNames,
    active: &ProfileSet,
) -> Result<Vec<Atom>, RelationError>
    ensures { Gives refusal_of (λ left. left.items) result
        (left_of names.now active.now
        (traverse (alternative_at kind) (slice_split (is_byte bar) text.now))) }
{
    let farm = Farm { names, active };
    let mut kept = Vec::with_capacity(alloc, 1)?;
    let mut left = Some(text);
    while let Some(rest) = left {
        let (alternative, after) = next_part(b'|', rest);
        let atom = Atom::parse_for(alloc, alternative, kind, &farm)?;
        push_kept(alloc, &mut kept, names, atom)?;
        left = after;
    }
    Ok(kept)
}

/// Reads one entry of a field of a kind, and keeps what [`reduce_entry`](crate::reduce_entry)
/// leaves of it. What is not kept takes the memory of one alternative.
///
/// # Errors
///
/// Those of [`Entry::parse`]. Nothing is left behind.
#[tactic(auto, unfolding(deb_relation::specs::Field::entry_at))]
pub fn reduce_entry_text(
    alloc: Global,
    text: &[u8],
    kind: Kind,
    names: &ArchNames,
    active: &ProfileSet,
) -> Result<Entry, RelationError>
    ensures { Gives refusal_of (λ left. left) result
        (left_of names.now active.now (entry_at kind text.now)) }
{
    if !kind.has_alternatives() && cut_at_first(b'|', text).is_some() {
        return Err(RelationError { code: ALTERNATIVES });
    }
    let kept = read_kept(alloc, text, kind, names, active)?;
    Ok(Entry::from_alternatives(kept))
}
