//! How a relation field is read.

ghost use Rattle.std.specs.Prelude.{◌≡◌, ◌<◌, [], ◌∷◌, IfNone, IfSome};
ghost use Rattle.std.specs.List.{slice_split};
ghost use Rattle.std.specs.Option.{option_map};
ghost use Rattle.deb_text.specs.Common.{Gives, is_byte, length_left, traverse};
ghost use Rattle.deb_relation.specs.Field.{alternative_at, entry_at, entries_left, relations_at, first_relations_at, only_judged};
ghost use Rattle.deb_relation.specs.Marks.{bar};
ghost use Rattle.deb_relation.specs.View.{refusal_of};

use crate::atom::Atom;
use crate::error::{ALTERNATIVES, RelationError};
use crate::kind::Kind;
use crate::relations::{Entry, Relations};
use deb_text::{Class, all_in, cut_at_first, next_part};
use std::alloc::Global;

impl Relations {
    /// Reads a relation field of a kind, which is cut at each `,` (Debian Policy 7.1). An entry of
    /// blanks alone is skipped.
    ///
    /// # Errors
    ///
    /// The first fault of [`Entry::parse`] from left to right. 900 where memory is refused.
    /// Nothing is left behind.
    pub fn parse(alloc: Global, text: &[u8], kind: Kind) -> Result<Relations, RelationError>
        ensures { Gives refusal_of (λ relations. relations) result (relations_at kind text.now) }
    {
        Ok(Relations::from_entries(read_entries(alloc, kind, text)?))
    }

    /// Reads a relation field of a kind as [`parse`](Relations::parse) does, and keeps no more
    /// than the first `most` of its entries. What stands behind them is judged, and takes no
    /// memory.
    ///
    /// # Errors
    ///
    /// The first fault of [`Entry::parse`] from left to right, in each entry of the field. 900
    /// where memory is refused. Nothing is left behind.
    pub fn parse_first(
        alloc: Global,
        text: &[u8],
        kind: Kind,
        most: usize,
    ) -> Result<Relations, RelationError>
        ensures { Gives refusal_of (λ relations. relations) result
            (first_relations_at most kind text.now) }
    {
        Ok(Relations::from_entries(read_first(alloc, kind, text, most)?))
    }

    /// Judges a relation field of a kind as [`parse`](Relations::parse) does, and keeps nothing:
    /// a field that is judged well is read wherever memory is given. The call takes no memory.
    ///
    /// # Errors
    ///
    /// The first fault of [`Entry::parse`] from left to right.
    #[tactic(auto, unfolding(crate::specs::Field::relations_at))]
    pub fn judge(text: &[u8], kind: Kind) -> Result<(), RelationError>
        ensures { Gives refusal_of (λ _. tt) result (only_judged (relations_at kind text.now)) }
    {
        judge_entries(Some(text), kind)
    }
}

impl Entry {
    /// Reads one entry of a field of a kind, which is cut at each `|` (Debian Policy 7.1).
    ///
    /// # Errors
    ///
    /// [`ALTERNATIVES`] for a `|` in a kind that has no alternatives; else the first fault of
    /// [`Atom::parse`] from left to right. 900 where memory is refused. Nothing is left behind.
    #[tactic(auto, unfolding(crate::specs::Field::entry_at))]
    pub fn parse(alloc: Global, text: &[u8], kind: Kind) -> Result<Entry, RelationError>
        ensures { Gives refusal_of (λ entry. entry) result (entry_at kind text.now) }
    {
        // most entries have one alternative
        let Some(_) = cut_at_first(b'|', text) else {
            return Ok(Entry::from_alternatives(read_alternative(alloc, kind, text)?));
        };
        if !kind.has_alternatives() {
            return Err(RelationError { code: ALTERNATIVES });
        }
        Ok(Entry::from_alternatives(read_alternatives(alloc, kind, text)?))
    }

    /// Judges one entry of a field of a kind as [`parse`](Entry::parse) does, and keeps nothing.
    /// The call takes no memory.
    ///
    /// # Errors
    ///
    /// Those of [`parse`](Entry::parse), but for 900.
    #[tactic(auto, unfolding(crate::specs::Field::entry_at))]
    pub fn judge(text: &[u8], kind: Kind) -> Result<(), RelationError>
        ensures { Gives refusal_of (λ _. tt) result (only_judged (entry_at kind text.now)) }
    {
        // most entries have one alternative
        let Some(_) = cut_at_first(b'|', text) else {
            return judge_alternative(kind, text);
        };
        if !kind.has_alternatives() {
            return Err(RelationError { code: ALTERNATIVES });
        }
        judge_alternatives(kind, text)
    }
}

fn read_entries(alloc: Global, kind: Kind, text: &[u8]) -> Result<Vec<Entry>, RelationError>
    ensures { Gives refusal_of (λ entries. entries.items) result (relations_at kind text.now) }
{
    let mut entries = Vec::new(alloc);
    let mut left = Some(text);
    while let Some((entry, after)) = next_entry(left) {
        entries.push(Entry::parse(alloc, entry, kind)?)?;
        left = after;
    }
    Ok(entries)
}

fn read_first(
    alloc: Global,
    kind: Kind,
    text: &[u8],
    most: usize,
) -> Result<Vec<Entry>, RelationError>
    ensures { Gives refusal_of (λ entries. entries.items) result
        (first_relations_at most kind text.now) }
{
    let mut entries = Vec::new(alloc);
    let mut left = Some(text);
    while entries.len() < most {
        let Some((entry, after)) = next_entry(left) else {
            return Ok(entries);
        };
        entries.push(Entry::parse(alloc, entry, kind)?)?;
        left = after;
    }
    judge_entries(left, kind)?;
    Ok(entries)
}

/// Judges the entries of what is left of a relation field of a kind, and keeps nothing. The call
/// takes no memory.
///
/// # Errors
///
/// The first fault of [`Entry::parse`] from left to right.
pub fn judge_entries(text: Option<&[u8]>, kind: Kind) -> Result<(), RelationError>
    ensures { Gives refusal_of (λ _. tt) result (only_judged
        (traverse (entry_at kind) (entries_left (option_map (λ rest. rest.now) text.entry)))) }
{
    let mut left = text;
    while let Some((entry, after)) = next_entry(left) {
        Entry::judge(entry, kind)?;
        left = after;
    }
    Ok(())
}

/// Takes the first entry of what is left of a relation field that is not of blanks alone, and
/// gives what is left behind it too. The call takes no memory.
pub fn next_entry(text: Option<&[u8]>) -> Option<(&[u8], Option<&[u8]>)>
    ensures none { IfNone result (entries_left (option_map (λ rest. rest.now) text.entry) ≡ []) }
    ensures entry { IfSome result (λ cut. entries_left (option_map (λ rest. rest.now) text.entry)
        ≡ cut.0.now ∷ entries_left (option_map (λ rest. rest.now) cut.1)) }
    ensures shorter { IfSome result (λ cut. length_left (option_map (λ rest. rest.now) cut.1)
        < length_left (option_map (λ rest. rest.now) text.entry)) }
{
    let mut left = text;
    while let Some(rest) = left {
        let (entry, after) = next_part(b',', rest);
        if !all_in(Class::Blank, entry) {
            return Some((entry, after));
        }
        left = after;
    }
    None
}

/// Reads the alternative of an entry that has no other.
fn read_alternative(alloc: Global, kind: Kind, text: &[u8]) -> Result<Vec<Atom>, RelationError>
    ensures { Gives refusal_of (λ atoms. atoms.items) result
        (traverse (alternative_at kind) (text.now ∷ [])) }
{
    let alternative = Atom::parse(alloc, text, kind)?;
    let mut alternatives = Vec::with_capacity(alloc, 1)?;
    alternatives.push(alternative)?;
    Ok(alternatives)
}

fn judge_alternative(kind: Kind, text: &[u8]) -> Result<(), RelationError>
    ensures { Gives refusal_of (λ _. tt) result (only_judged
        (traverse (alternative_at kind) (text.now ∷ []))) }
{
    Atom::judge(text, kind)?;
    Ok(())
}

/// How many bars a text has: so many alternatives, and one more, take room at once, and no list of
/// them is copied as it grows.
fn bars_in(text: &[u8]) -> usize {
    let mut count = 0usize;
    for byte in text {
        count = count.wrapping_add(usize::from(*byte == b'|'));
    }
    count
}

fn read_alternatives(alloc: Global, kind: Kind, text: &[u8]) -> Result<Vec<Atom>, RelationError>
    ensures { Gives refusal_of (λ atoms. atoms.items) result
        (traverse (alternative_at kind) (slice_split (is_byte bar) text.now)) }
{
    let mut alternatives = Vec::with_capacity(alloc, bars_in(text).saturating_add(1))?;
    let mut left = Some(text);
    while let Some(rest) = left {
        let (piece, after) = next_part(b'|', rest);
        alternatives.push(Atom::parse(alloc, piece, kind)?)?;
        left = after;
    }
    Ok(alternatives)
}

fn judge_alternatives(kind: Kind, text: &[u8]) -> Result<(), RelationError>
    ensures { Gives refusal_of (λ _. tt) result (only_judged
        (traverse (alternative_at kind) (slice_split (is_byte bar) text.now))) }
{
    let mut left = Some(text);
    while let Some(rest) = left {
        let (alternative, after) = next_part(b'|', rest);
        Atom::judge(alternative, kind)?;
        left = after;
    }
    Ok(())
}
