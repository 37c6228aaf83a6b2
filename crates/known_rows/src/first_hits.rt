//! The first output of each lane that a row has.

ghost use Rattle.std.specs.Prelude.{◌≡◌, ℕ, ◌<◌, ◌≤◌, true, Some, IfOk, length, slice_get, slice_index};
ghost use Rattle.farm_model.specs.Packages.{names};
ghost use Rattle.known_rows.specs.declared.marks.LaneOutputs.{LaneOutputs};
ghost use Rattle.known_rows.specs.declared.marks.Output.{Output};
ghost use Rattle.known_rows.specs.ByName.{IsOutput, AreListedByName, IsEarliest, AreMoved, AreFirsts, has};

use crate::by_name::{ByName, OutputPlace};
use crate::known_outputs::KnownOutputs;
use crate::marks::LaneOutputs;
use bit_rows::Row;
use std::alloc::{AllocError, Global};

/// Tells whether the row has the output at a place.
fn is_hit(known: KnownOutputs<'_>, row: &Row, place: OutputPlace) -> bool
    requires { length row.now ≡ names known.universe.now }
    ensures { (o : Output) → IsOutput known.entry.lanes.now place.lane place.number o
        → result ≡ has row.now o }
{
    if place.lane >= known.lanes.len() {
        return false;
    }
    let outputs = known.lanes[place.lane].outputs.as_slice();
    if place.number >= outputs.len() {
        return false;
    }
    let variant = outputs[place.number].variant;
    row.has(variant.name as usize, variant.bit)
}

/// Looks at an output: where the row has it, its lane's number is to be no later.
fn look_at(known: KnownOutputs<'_>, row: &Row, place: OutputPlace, firsts: &mut [usize])
    requires long { length row.now ≡ names known.universe.now }
    requires count { length firsts.old ≡ length known.lanes.now }
    ensures moved { AreMoved row.now known.entry.lanes.now firsts.old firsts.new }
    ensures early { (o : Output) → IsOutput known.entry.lanes.now place.lane place.number o
        → has row.now o ≡ true → slice_index firsts.new place.lane ≤ place.number }
{
    if place.lane >= firsts.len() {
        return;
    }
    if firsts[place.lane] <= place.number {
        return;
    }
    if !is_hit(known, row, place) {
        return;
    }
    firsts[place.lane] = place.number;
}

/// Looks at the outputs of a name.
fn look_at_name(
    known: KnownOutputs<'_>,
    row: &Row,
    by_name: &ByName,
    name: usize,
    firsts: &mut [usize],
)
    requires long { length row.now ≡ names known.universe.now }
    requires lists { length by_name.now ≡ names known.universe.now }
    requires listed { AreListedByName by_name.now known.lanes.now (length known.lanes.now) }
    requires name { name < length row.now }
    requires count { length firsts.old ≡ length known.lanes.now }
    ensures moved { AreMoved row.now known.entry.lanes.now firsts.old firsts.new }
    ensures early { IsEarliest row.now known.entry.lanes.now firsts.new name }
{
    if row.word(name) == 0 {
        return;
    }
    let places = by_name.places(name);
    for k in 0..places.len() {
        look_at(known, row, places[k], firsts);
    }
}

/// For each lane how many outputs it has, which is the number of none.
fn ends(alloc: Global, lanes: &[LaneOutputs]) -> Result<Vec<usize>, AllocError>
    ensures long { IfOk result (λ ends. length ends.items ≡ length lanes.now) }
    ensures ends { IfOk result (λ ends. (l : ℕ) (of : LaneOutputs) → slice_get lanes.now l ≡ Some of
        → slice_index ends.items l ≡ length of.outputs.items) }
{
    let mut ends = vec![in alloc; 0; lanes.len()]?;
    for lane in 0..lanes.len() {
        ends[lane] = lanes[lane].outputs.len();
    }
    Ok(ends)
}

/// For each lane the number of its first output that the row has, or how many outputs it has where
/// the row has none. Only the outputs of names that the row has are looked at.
pub fn first_hits(
    alloc: Global,
    known: KnownOutputs<'_>,
    row: &Row,
    by_name: &ByName,
) -> Result<Vec<usize>, AllocError>
    requires long { length row.now ≡ names known.universe.now }
    requires lists { length by_name.now ≡ names known.universe.now }
    requires listed { AreListedByName by_name.now known.lanes.now (length known.lanes.now) }
    ensures { IfOk result (λ firsts. AreFirsts row.now known.entry.lanes.now firsts.items) }
{
    let mut firsts = ends(alloc, known.lanes)?;
    let mut name = row.skip(0);
    while name < row.len() {
        look_at_name(known, row, by_name, name, &mut firsts);
        name = row.skip(name + 1);
    }
    Ok(firsts)
}
