//! The words of all names that a clock stands for, filled once and then taken from place to place.

ghost use Rattle.std.specs.Prelude.{◌≡◌, ℕ, ◌<◌, ◌≤◌, ◌||◌, Bool, true, false, Some, length, take, slice_get};
ghost use Rattle.std.specs.List.{list_any};
ghost use Rattle.bit_rows.specs.Sets.{variants_of, AddsVariant};
ghost use Rattle.farm_model.specs.declared.types.Variant as types;
ghost use Rattle.farm_model.specs.Common.{names, initial, same, IsUniverse};
ghost use Rattle.plan_model.specs.Plan as model;
ghost use Rattle.sat_rows.specs.Rows.{IsRowOf};
ghost use Rattle.known_rows.specs.declared.marks.LaneOutputs as marks;
ghost use Rattle.known_rows.specs.Clock.{count_of, IsClockFor, row_of, AreWithin};
ghost use Rattle.known_rows.specs.Marks.{AreLanes};

use crate::clock::{Clock, counted};
use crate::known_outputs::KnownOutputs;
use farm_model::Variant;
use farm_universe::Universe;

/// Adds a variant.
fn add_variant(words: &mut [u64], variant: Variant)
    requires named { variant.name < length words.old }
    requires within { variant.bit < 64 }
    ensures set { AddsVariant (variants_of words.old) variant.name variant.bit
        (variants_of words.new) }
    ensures long { length words.new ≡ length words.old }
{
    words[variant.name as usize] |= 1 << variant.bit;
}

/// Adds the outputs of a lane from one number up to another, or to its last where there are fewer.
fn add_outputs(known: KnownOutputs<'_>, words: &mut [u64], lane: usize, from: u64, to: u64)
    requires words { length words.old ≡ names known.universe.now }
    requires lane { lane < length known.lanes.now }
    requires order { from ≤ to }
    ensures long { length words.new ≡ names known.entry.universe.now }
    ensures added { (of : marks.LaneOutputs) (test : types.Variant → Bool)
        → slice_get known.entry.lanes.now lane ≡ Some of
        → IsRowOf known.entry.universe.now
        (λ v. test v || list_any (λ o. same o.variant v) (take from of.outputs.items)) words.old
        → IsRowOf known.entry.universe.now
        (λ v. test v || list_any (λ o. same o.variant v) (take to of.outputs.items)) words.new }
{
    let outputs = known.lanes[lane].outputs.as_slice();
    let total = outputs.len() as u64;
    let start = from.min(total) as usize;
    let end = to.min(total) as usize;
    for n in start..end {
        add_variant(words, outputs[n].variant);
    }
}

/// Tells whether a clock counts no fewer outputs of each lane than another.
fn is_later(lanes: usize, from: &Clock, to: &Clock) -> bool
    requires from { IsClockFor lanes from.now }
    requires to { IsClockFor lanes to.now }
    ensures later { result ≡ true → AreWithin lanes (count_of from.now) (count_of to.now) }
    ensures falls { result ≡ false → ¬ AreWithin lanes (count_of from.now) (count_of to.now) }
{
    for other in 0..lanes {
        if counted(to, other) < counted(from, other) {
            return false;
        }
    }
    true
}

/// Adds what a later clock counts to the words of a clock.
fn add_later(known: KnownOutputs<'_>, words: &mut [u64], from: &Clock, to: &Clock)
    requires words { length words.old ≡ names known.universe.now }
    requires from { IsClockFor (length known.lanes.now) from.now }
    requires to { IsClockFor (length known.lanes.now) to.now }
    requires later { AreWithin (length known.lanes.now) (count_of from.now) (count_of to.now) }
    ensures long { length words.new ≡ names known.entry.universe.now }
    ensures row { (p : model.Plan) → AreLanes known.entry.universe.now p known.entry.lanes.now
        → IsRowOf known.entry.universe.now
        (row_of known.entry.universe.now p (count_of from.now)) words.old
        → IsRowOf known.entry.universe.now
        (row_of known.entry.universe.now p (count_of to.now)) words.new }
{
    for other in 0..known.lanes.len() {
        let before = counted(from, other);
        let count = counted(to, other);
        add_outputs(known, words, other, before, count);
    }
}

/// Puts the words of the initial archive in the place of others.
fn put_initial(universe: &Universe, words: &mut [u64])
    requires sound { IsUniverse universe.now }
    requires words { length words.old ≡ names universe.now }
    ensures { IsRowOf universe.now (initial universe.now) words.new }
{
    for name in 0..universe.names() {
        words[name as usize] = universe.initial(name);
    }
}

/// Puts the words of a clock in the place of others.
pub fn fill_words(known: KnownOutputs<'_>, words: &mut [u64], clock: &Clock)
    requires words { length words.old ≡ names known.universe.now }
    requires clock { IsClockFor (length known.lanes.now) clock.now }
    ensures long { length words.new ≡ names known.entry.universe.now }
    ensures row { (p : model.Plan) → AreLanes known.entry.universe.now p known.entry.lanes.now
        → IsRowOf known.entry.universe.now
        (row_of known.entry.universe.now p (count_of clock.now)) words.new }
{
    put_initial(known.universe, words);
    add_later(known, words, &clock.begun(), clock);
}

/// Puts the words of a clock in the place of those of another: what is new is added where each
/// lane counts as many as before, and else all are filled anew, as behind a branch.
pub fn move_words(known: KnownOutputs<'_>, words: &mut [u64], from: &Clock, to: &Clock)
    requires words { length words.old ≡ names known.universe.now }
    requires from { IsClockFor (length known.lanes.now) from.now }
    requires to { IsClockFor (length known.lanes.now) to.now }
    ensures long { length words.new ≡ names known.entry.universe.now }
    ensures row { (p : model.Plan) → AreLanes known.entry.universe.now p known.entry.lanes.now
        → IsRowOf known.entry.universe.now
        (row_of known.entry.universe.now p (count_of from.now)) words.old
        → IsRowOf known.entry.universe.now
        (row_of known.entry.universe.now p (count_of to.now)) words.new }
{
    if is_later(known.lanes.len(), from, to) {
        add_later(known, words, from, to);
    } else {
        fill_words(known, words, to);
    }
}
