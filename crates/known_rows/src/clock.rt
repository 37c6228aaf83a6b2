//! The clock of a place: how many outputs of each lane count there; and the words and rows that it
//! stands for.

ghost use Rattle.std.specs.Prelude.{◌≡◌, ◌⊎◌, ℕ, ◌<◌, ◌||◌, Bool, true, Some, length, take, slice_get, IfOk, OnOk, IsNone, IfSome};
ghost use Rattle.std.specs.List.{list_any};
ghost use Rattle.clause_kernel.specs.Rows.{word_has};
ghost use Rattle.farm_model.specs.Packages.{names, initial, same};
ghost use Rattle.farm_model.specs.declared.types.Variant.{Variant};
ghost use Rattle.plan_model.specs.Plan as model;
ghost use Rattle.sat_rows.specs.Rows.{IsWordFor, IsRowOf};
ghost use Rattle.known_rows.specs.declared.marks.LaneOutputs.{LaneOutputs};
ghost use Rattle.known_rows.specs.ByName.{AreListedByName};
ghost use Rattle.known_rows.specs.Clock.{count_of, IsClockFor, row_of, IsCounted};
ghost use Rattle.known_rows.specs.Column.{IsPointBelow};
ghost use Rattle.known_rows.specs.Columns.{column_of};
ghost use Rattle.known_rows.specs.Marks.{AreLanes};

use crate::by_name::{ByName, OutputPlace};
use crate::columns::Counts;
use crate::known_outputs::KnownOutputs;
use crate::marks::LaneOutputs;
use bit_rows::Row;
use std::alloc::{AllocError, Global};

/// How many outputs of each lane count at a place of a lane: of its own the `own` ones that it
/// made, of each other lane those that its last point has in `columns`.
#[derive(Clone, Copy)]
pub struct Clock<'k> {
    pub lane: usize,
    pub own: usize,
    pub columns: &'k [Counts],
    pub last: Option<usize>,
}

impl<'k> Clock<'k> {
    /// The clock of the lane's beginning, which counts none.
    pub fn begun(&self) -> Clock<'k>
        ensures none { (j : ℕ) → count_of result j ≡ 0 }
        ensures fits { (lanes : ℕ) → IsClockFor lanes self.now → IsClockFor lanes result }
    {
        Clock {
            lane: self.lane,
            own: 0,
            columns: self.columns,
            last: None,
        }
    }
}

/// How many outputs of a lane count.
pub fn counted(clock: &Clock, other: usize) -> u64
    requires other { other < length clock.now.columns.now }
    requires there { IsPointBelow (length (column_of clock.now.columns.now other)) clock.now.last }
    ensures { result ≡ count_of clock.now other }
{
    if other == clock.lane {
        clock.own as u64
    } else {
        clock.columns[other].at(clock.last)
    }
}

/// The bit of the output at a place, if it is of this name and counts.
fn counted_bit(lanes: &[LaneOutputs], clock: &Clock, name: u32, place: OutputPlace) -> Option<u32>
    requires { IsClockFor (length lanes.now) clock.now }
    ensures some { IfSome result (IsCounted lanes.now (count_of clock.now) place name) }
    ensures none { IsNone result
        → (b : ℕ) → IsCounted lanes.now (count_of clock.now) place name b → ⊥ }
{
    if place.lane >= lanes.len() {
        return None;
    }
    let outputs = lanes[place.lane].outputs.as_slice();
    if place.number >= outputs.len() {
        return None;
    }
    let variant = outputs[place.number].variant;
    if variant.name != name || place.number as u64 >= counted(clock, place.lane) {
        return None;
    }
    Some(variant.bit)
}

/// The word, with the bit of the output at a place, if it is of this name and counts.
fn with_counted(
    known: KnownOutputs<'_>,
    clock: &Clock,
    name: u32,
    place: OutputPlace,
    word: u64,
) -> u64
    requires clock { IsClockFor (length known.lanes.now) clock.now }
    ensures kept { (b : ℕ) → word_has word b ≡ true → word_has result b ≡ true }
    ensures counted { (b : ℕ) → IsCounted known.entry.lanes.now (count_of clock.now) place name b
        → word_has result b ≡ true }
    ensures only { (b : ℕ) → word_has result b ≡ true → (word_has word b ≡ true)
        ⊎ IsCounted known.entry.lanes.now (count_of clock.now) place name b }
{
    match counted_bit(known.lanes, clock, name, place) {
        Some(bit) => word | 1 << bit,
        None => word,
    }
}

/// The variants of a name that are there from the start or among the outputs that count, as a word.
pub fn clock_word(known: KnownOutputs<'_>, by_name: &ByName, clock: &Clock, name: u32) -> u64
    requires lists { length by_name.now ≡ names known.universe.now }
    requires listed { AreListedByName by_name.now known.lanes.now (length known.lanes.now) }
    requires clock { IsClockFor (length known.lanes.now) clock.now }
    requires name { name < names known.universe.now }
    ensures { (p : model.Plan) → AreLanes known.entry.universe.now p known.entry.lanes.now
        → IsWordFor known.entry.universe.now
        (row_of known.entry.universe.now p (count_of clock.now)) name result }
{
    let mut word = known.universe.initial(name);
    let places = by_name.places(name as usize);
    for k in 0..places.len() {
        word = with_counted(known, clock, name, places[k], word);
    }
    word
}

/// Adds the first `count` outputs of a lane, or all where there are fewer, to a row.
fn add_outputs(
    known: KnownOutputs<'_>,
    row: &mut Row,
    lane: usize,
    count: u64,
) -> Result<(), AllocError>
    requires row { length row.old ≡ names known.universe.now }
    requires lane { lane < length known.lanes.now }
    ensures long { OnOk result (length row.new ≡ names known.entry.universe.now) }
    ensures added { OnOk result ((of : LaneOutputs) (test : Variant → Bool)
        → slice_get known.entry.lanes.now lane ≡ Some of
        → IsRowOf known.entry.universe.now test row.old → IsRowOf known.entry.universe.now
        (λ v. test v || list_any (λ o. same o.variant v) (take count of.outputs.items)) row.new) }
{
    let outputs = known.lanes[lane].outputs.as_slice();
    let limit = count.min(outputs.len() as u64) as usize;
    for n in 0..limit {
        let variant = outputs[n].variant;
        row.set_bit(variant.name as usize, variant.bit)?;
    }
    Ok(())
}

/// All that is there from the start or among the outputs that count, as a row. `archive` is the
/// initial archive.
pub fn clock_row(
    alloc: Global,
    known: KnownOutputs<'_>,
    archive: &Row,
    clock: &Clock,
) -> Result<Row, AllocError>
    requires archive { IsRowOf known.universe.now (initial known.universe.now) archive.now }
    requires clock { IsClockFor (length known.lanes.now) clock.now }
    ensures { IfOk result (λ row. (p : model.Plan)
        → AreLanes known.entry.universe.now p known.entry.lanes.now → IsRowOf
        known.entry.universe.now (row_of known.entry.universe.now p (count_of clock.now)) row) }
{
    let mut row = archive.clone()?;
    for other in 0..known.lanes.len() {
        let count = counted(clock, other);
        add_outputs(known, &mut row, other, count)?;
    }
    Ok(row)
}
