//! The outputs of a plan's lanes: of each lane in order, and of all by name.

ghost use Rattle.std.specs.Prelude.{◌≡◌, ℕ, ◌<◌, ◌≤◌, length, IfOk};
ghost use Rattle.farm_model.specs.Packages.{names, initial};
ghost use Rattle.farm_model.specs.Universe as farm;
ghost use Rattle.plan_model.specs.Common.{possible, lane, IsSound};
ghost use Rattle.plan_model.specs.Plan as model;
ghost use Rattle.sat_rows.specs.Rows.{IsWordFor, IsRowOf};
ghost use Rattle.known_rows.specs.Clock.{count_of, IsClockFor, row_of};
ghost use Rattle.known_rows.specs.Marks.{past_at, AreLanes, HavePast};
ghost use Rattle.known_rows.specs.Outputs.{AreTotals};

use crate::by_name::ByName;
use crate::clock::{Clock, clock_row, clock_word};
use crate::columns::Counts;
use crate::known_outputs::KnownOutputs;
use crate::marks::{LaneOutputs, Past, walk};
use crate::words::{fill_words, move_words};
use bit_rows::Row;
use farm_universe::Universe;
use plan_reader::Plan;
use std::alloc::{AllocError, Global};
use std::marker::Model;
use std::snapshot::Snapshot;

/// The outputs of the lanes of a plan. A contract sees the universe and the plan that they are
/// about.
#[derive(Drop)]
pub struct Outputs {
    universe: Snapshot<Universe>,
    plan: Snapshot<Plan>,
    lanes: Vec<LaneOutputs>,
    by_name: ByName,
    totals: Vec<Counts>,
}

impl Model for Outputs {
    ghost use Rattle.known_rows.specs.Outputs as spec;
    ghost use Rattle.known_rows.specs.Outputs.{AreOutputsOfPlan};

    ghost Value = { spec.PlanOutputs };

    ghost view = { λ outputs. record {
      universe = outputs.universe.value;
      plan = outputs.plan.value.lanes;
    } };

    ghost invariant = { λ outputs. AreOutputsOfPlan outputs.universe.value outputs.plan.value.lanes
        outputs.lanes.items outputs.by_name outputs.totals.items };
}

/// For each lane one count, of all its outputs: that of a point that knows all of them.
fn totals(alloc: Global, lanes: &[LaneOutputs]) -> Result<Vec<Counts>, AllocError>
    ensures { IfOk result (λ totals. (u : farm.Universe) (p : model.Plan)
        → AreLanes u p lanes.now → AreTotals u p (length p) totals.items) }
{
    let mut totals = Vec::new(alloc);
    for number in 0..lanes.len() {
        let total = lanes[number].outputs.len() as u64;
        totals.push(Counts::one(alloc, total)?)?;
    }
    Ok(totals)
}

impl Outputs {
    /// Puts the outputs of the lanes together.
    pub(crate) fn of_lanes(
        alloc: Global,
        universe: &Universe,
        plan: &Plan,
        lanes: Vec<LaneOutputs>,
    ) -> Result<Outputs, AllocError>
        requires sound { IsSound universe.now plan.now.lanes }
        requires lanes { AreLanes universe.now plan.now.lanes lanes.items }
        requires past { HavePast universe.now plan.now.lanes lanes.items }
        ensures universe { IfOk result (λ outputs. outputs.universe ≡ universe.now) }
        ensures plan { IfOk result (λ outputs. outputs.plan ≡ plan.now.lanes) }
    {
        let known = KnownOutputs {
            universe,
            lanes: &lanes,
        };
        let by_name = ByName::of(alloc, known)?;
        let totals = totals(alloc, &lanes)?;
        Ok(Outputs {
            universe: Snapshot::of(universe),
            plan: Snapshot::of(plan),
            lanes,
            by_name,
            totals,
        })
    }

    /// The outputs of the lanes of a plan.
    pub fn of(alloc: Global, universe: &Universe, plan: &Plan) -> Result<Outputs, AllocError>
        requires { IsSound universe.now plan.now.lanes }
        ensures universe { IfOk result (λ outputs. outputs.universe ≡ universe.now) }
        ensures plan { IfOk result (λ outputs. outputs.plan ≡ plan.now.lanes) }
    {
        let marks = walk(alloc, universe, plan)?;
        Outputs::of_lanes(alloc, universe, plan, marks.lanes)
    }

    /// What a lane has behind it at a place.
    pub(crate) fn past(&self, number: usize, place: usize) -> Past
        requires lane { number < length self.now.plan }
        requires place { place ≤ length (lane self.now.plan number).instructions }
        ensures { result ≡ past_at self.now.universe self.now.plan number place }
    {
        self.lanes[number].past[place]
    }

    /// The variants of a name that are there from the start or among the outputs that a clock
    /// counts, as a word.
    pub(crate) fn word(&self, universe: &Universe, clock: &Clock, name: u32) -> u64
        requires of_universe { self.now.universe ≡ universe.now }
        requires clock { IsClockFor (length self.now.plan) clock.now }
        requires name { name < names universe.now }
        ensures { IsWordFor universe.now
            (row_of universe.now self.now.plan (count_of clock.now)) name result }
    {
        let known = KnownOutputs {
            universe,
            lanes: &self.lanes,
        };
        clock_word(known, &self.by_name, clock, name)
    }

    /// The variants of all names, as a row. `archive` is the initial archive.
    pub(crate) fn row(
        &self,
        alloc: Global,
        universe: &Universe,
        archive: &Row,
        clock: &Clock,
    ) -> Result<Row, AllocError>
        requires of_universe { self.now.universe ≡ universe.now }
        requires archive { IsRowOf universe.now (initial universe.now) archive.now }
        requires clock { IsClockFor (length self.now.plan) clock.now }
        ensures { IfOk result (IsRowOf universe.now
            (row_of universe.now self.now.plan (count_of clock.now))) }
    {
        let known = KnownOutputs {
            universe,
            lanes: &self.lanes,
        };
        clock_row(alloc, known, archive, clock)
    }

    /// Puts the words of a clock in the place of others.
    pub(crate) fn fill_words(&self, universe: &Universe, clock: &Clock, words: &mut [u64])
        requires of_universe { self.now.universe ≡ universe.now }
        requires clock { IsClockFor (length self.now.plan) clock.now }
        requires words { length words.old ≡ names universe.now }
        ensures { IsRowOf universe.now (row_of universe.now self.now.plan (count_of clock.now))
            words.new }
    {
        let known = KnownOutputs {
            universe,
            lanes: &self.lanes,
        };
        fill_words(known, words, clock);
    }

    /// Puts the words of a clock in the place of those of another.
    pub(crate) fn move_words(
        &self,
        universe: &Universe,
        from: &Clock,
        to: &Clock,
        words: &mut [u64],
    )
        requires of_universe { self.now.universe ≡ universe.now }
        requires from { IsClockFor (length self.now.plan) from.now }
        requires to { IsClockFor (length self.now.plan) to.now }
        requires words { IsRowOf universe.now
            (row_of universe.now self.now.plan (count_of from.now)) words.old }
        ensures { IsRowOf universe.now (row_of universe.now self.now.plan (count_of to.now))
            words.new }
    {
        let known = KnownOutputs {
            universe,
            lanes: &self.lanes,
        };
        move_words(known, words, from, to);
    }

    /// What of a name may be in the archive at a place of a lane, as a word: what is there from the
    /// start, what the other lanes make, and what the lane made before the place.
    pub fn possible_word(&self, universe: &Universe, number: usize, place: usize, name: u32) -> u64
        requires of_universe { self.now.universe ≡ universe.now }
        requires lane { number < length self.now.plan }
        requires place { place ≤ length (lane self.now.plan number).instructions }
        requires name { name < names universe.now }
        ensures { IsWordFor universe.now (possible universe.now self.now.plan number place) name
            result }
    {
        let clock = Clock {
            lane: number,
            own: self.past(number, place).own,
            columns: &self.totals,
            last: Some(0),
        };
        self.word(universe, &clock, name)
    }
}
