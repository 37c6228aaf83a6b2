//! The outputs of a plan, listed by name, so that a row looks at those of its own names alone.

ghost use Rattle.std.specs.Prelude.{◌≡◌, ◌<◌, ◌++◌, ◌∷◌, [], Some, IfOk, OnOk, length, slice_get, slice_index_or};
ghost use Rattle.farm_model.specs.Packages.{names};
ghost use Rattle.known_rows.specs.declared.marks.LaneOutputs.{LaneOutputs};
ghost use Rattle.known_rows.specs.ByName.{with_place_listed, IsListedByName, KeepsListed, AreLaneListed, AreListedByName};

use crate::known_outputs::KnownOutputs;
use std::alloc::{AllocError, Global};
use std::marker::Model;

/// Where an output is made: its lane, and how many outputs the lane makes before it.
#[derive(Clone, Copy)]
pub struct OutputPlace {
    pub lane: usize,
    pub number: usize,
}

/// The outputs of one name.
#[derive(Drop)]
struct PlaceList {
    places: Vec<OutputPlace>,
}

impl Model for PlaceList {
    ghost use Rattle.std.specs.Prelude.{List};
    ghost use Rattle.known_rows.specs.declared.by_name.OutputPlace.{OutputPlace};

    ghost Value = { List OutputPlace };

    ghost view = { λ list. list.places.items };
}

impl PlaceList {
    fn new(alloc: Global) -> PlaceList
        ensures { result ≡ [] }
    {
        PlaceList {
            places: Vec::new(alloc),
        }
    }

    fn push(&mut self, place: OutputPlace) -> Result<(), AllocError>
        ensures { OnOk result (self.new ≡ self.old ++ place ∷ []) }
    {
        self.places.push(place)?;
        Ok(())
    }

    fn places(&self) -> &[OutputPlace]
        ensures { result.now ≡ self.now }
    {
        &self.places
    }
}

/// The outputs of a plan by name.
#[derive(Drop)]
pub struct ByName {
    lists: Vec<PlaceList>,
}

impl Model for ByName {
    ghost use Rattle.std.specs.Prelude.{List};
    ghost use Rattle.known_rows.specs.declared.by_name.OutputPlace.{OutputPlace};

    ghost Value = { List (List OutputPlace) };

    ghost view = { λ by_name. by_name.lists.items };
}

impl ByName {
    /// Makes the lists of so many names, all empty.
    fn new(alloc: Global, names: u32) -> Result<ByName, AllocError>
        ensures { IfOk result (λ lists. length lists ≡ names) }
    {
        let mut lists = Vec::with_capacity(alloc, names as usize)?;
        for _ in 0..names {
            lists.push(PlaceList::new(alloc))?;
        }
        Ok(ByName { lists })
    }

    /// The places of the outputs of a name.
    pub fn places(&self, name: usize) -> &[OutputPlace]
        requires { name < length self.now }
        ensures { result.now ≡ slice_index_or self.now name [] }
    {
        self.lists[name].places()
    }

    fn put(&mut self, name: usize, place: OutputPlace) -> Result<(), AllocError>
        requires { name < length self.old }
        ensures { OnOk result (self.new ≡ with_place_listed self.old name place) }
    {
        self.lists[name].push(place)
    }

    fn add(&mut self, name: usize, place: OutputPlace) -> Result<(), AllocError>
        requires { name < length self.old }
        ensures kept { OnOk result (KeepsListed self.old self.new) }
        ensures there { OnOk result (IsListedByName self.new name place) }
    {
        self.put(name, place)?;
        Ok(())
    }

    /// Lists the outputs of a lane.
    fn add_lane(&mut self, known: KnownOutputs<'_>, lane: usize) -> Result<(), AllocError>
        requires long { length self.old ≡ names known.universe.now }
        requires lane { lane < length known.lanes.now }
        ensures kept { OnOk result (KeepsListed self.old self.new) }
        ensures listed { OnOk result ((of : LaneOutputs)
            → slice_get known.entry.lanes.now lane ≡ Some of
            → AreLaneListed self.new lane of.outputs.items (length of.outputs.items)) }
    {
        let outputs = known.lanes[lane].outputs.as_slice();
        for number in 0..outputs.len() {
            let name = outputs[number].variant.name as usize;
            self.add(name, OutputPlace { lane, number })?;
        }
        Ok(())
    }

    /// Lists the outputs of all lanes.
    pub fn of(alloc: Global, known: KnownOutputs<'_>) -> Result<ByName, AllocError>
        ensures long { IfOk result (λ lists. length lists ≡ names known.entry.universe.now) }
        ensures listed { IfOk result (λ lists.
            AreListedByName lists known.entry.lanes.now (length known.entry.lanes.now)) }
    {
        let mut lists = ByName::new(alloc, known.universe.names())?;
        for lane in 0..known.lanes.len() {
            lists.add_lane(known, lane)?;
        }
        Ok(lists)
    }
}
