//! Known rows: for each place of a plan how many outputs of each lane are surely in the archive.

ghost use Rattle.std.specs.Prelude.{◌≡◌, ℕ, ◌<◌, ◌≤◌, length, IfOk};
ghost use Rattle.farm_model.specs.Packages.{names, initial};
ghost use Rattle.plan_model.specs.Plan.{lane};
ghost use Rattle.sat_rows.specs.Rows.{IsWordFor, IsRowOf};
ghost use Rattle.known_rows.specs.Clock.{count_of, IsClockFor, row_of};
ghost use Rattle.known_rows.specs.KnownRows.{Knowledge, rows_of, HasCounts};

use crate::clock::Clock;
use crate::columns::Counts;
use crate::outputs::Outputs;
use bit_rows::Row;
use farm_universe::Universe;
use std::alloc::{AllocError, Global};
use std::marker::Model;

/// Known rows of a plan, however they are kept.
pub trait KnownWords {
    ghost known: { Self → Knowledge };

    /// What of a name is surely in the archive at a place of a lane, as a word.
    fn word(&self, universe: &Universe, number: usize, place: usize, name: u32) -> u64
        requires of_universe { (known self.now).universe ≡ universe.now }
        requires lane { number < length (known self.now).plan }
        requires place { place ≤ length (lane (known self.now).plan number).instructions }
        requires name { name < names universe.now }
        ensures { IsWordFor universe.now ((known self.now).rows number place) name result };
}

/// What each lane of a plan knows of the archive at each place: the variants that are there
/// whenever it stands there. A place is a number of instructions done. Kept is how many outputs of
/// each lane each wait and `when` knows. A contract sees the universe, the plan and these counts.
#[derive(Drop)]
pub struct Known {
    outputs: Outputs,
    columns: Vec<Counts>,
}

impl Model for Known {
    ghost use Rattle.known_rows.specs.KnownRows as spec;
    ghost use Rattle.known_rows.specs.KnownRows.{HasCounts};

    ghost Value = { spec.KnownRows };

    ghost view = { λ known. record {
      universe = known.outputs.universe;
      plan = known.outputs.plan;
      columns = known.columns.items;
    } };

    ghost invariant = { λ known. HasCounts known.outputs.plan known.columns.items };
}

impl Known {
    /// Puts the outputs of a plan and what each wait and `when` knows of them together.
    pub(crate) fn new(outputs: Outputs, columns: Vec<Counts>) -> Known
        requires { HasCounts outputs.plan columns.items }
        ensures { result ≡ record {
          universe = outputs.universe;
          plan = outputs.plan;
          columns = columns.items;
        } }
    {
        Known { outputs, columns }
    }

    /// The outputs of the plan.
    pub fn outputs(&self) -> &Outputs
        ensures universe { result.now.universe ≡ self.now.universe }
        ensures plan { result.now.plan ≡ self.now.plan }
    {
        &self.outputs
    }

    /// How many outputs of each lane are known at a place.
    fn clock(&self, number: usize, place: usize) -> Clock<'_>
        requires lane { number < length self.now.plan }
        requires place { place ≤ length (lane self.now.plan number).instructions }
        ensures rows { row_of self.now.universe self.now.plan (count_of result)
            ≡ rows_of self.now number place }
        ensures fits { IsClockFor (length self.now.plan) result }
    {
        let past = self.outputs.past(number, place);
        Clock {
            lane: number,
            own: past.own,
            columns: &self.columns,
            last: past.last,
        }
    }

    /// What a lane knows at a place, as a row. `archive` is the initial archive.
    pub fn row(
        &self,
        alloc: Global,
        universe: &Universe,
        archive: &Row,
        number: usize,
        place: usize,
    ) -> Result<Row, AllocError>
        requires of_universe { self.now.universe ≡ universe.now }
        requires archive { IsRowOf universe.now (initial universe.now) archive.now }
        requires lane { number < length self.now.plan }
        requires place { place ≤ length (lane self.now.plan number).instructions }
        ensures { IfOk result (IsRowOf universe.now (rows_of self.now number place)) }
    {
        let clock = self.clock(number, place);
        self.outputs.row(alloc, universe, archive, &clock)
    }

    /// Puts what a lane knows at a place into words, one for each name, whatever they had.
    pub fn fill_words(&self, universe: &Universe, number: usize, place: usize, words: &mut [u64])
        requires of_universe { self.now.universe ≡ universe.now }
        requires lane { number < length self.now.plan }
        requires place { place ≤ length (lane self.now.plan number).instructions }
        requires words { length words.old ≡ names universe.now }
        ensures { IsRowOf universe.now (rows_of self.now number place) words.new }
    {
        let clock = self.clock(number, place);
        self.outputs.fill_words(universe, &clock, words);
    }

    /// Takes the words of what a lane knows at a place to another of its places. Where it knows no
    /// less there, only what is new is looked at.
    pub fn move_words(
        &self,
        universe: &Universe,
        number: usize,
        from: usize,
        to: usize,
        words: &mut [u64],
    )
        requires of_universe { self.now.universe ≡ universe.now }
        requires lane { number < length self.now.plan }
        requires from { from ≤ length (lane self.now.plan number).instructions }
        requires to { to ≤ length (lane self.now.plan number).instructions }
        requires words { IsRowOf universe.now (rows_of self.now number from) words.old }
        ensures { IsRowOf universe.now (rows_of self.now number to) words.new }
    {
        let before = self.clock(number, from);
        let clock = self.clock(number, to);
        self.outputs.move_words(universe, &before, &clock, words);
    }
}

impl KnownWords for Known {
    ghost known = { λ known. record {
      universe = known.universe;
      plan = known.plan;
      rows = rows_of known;
    } };

    fn word(&self, universe: &Universe, number: usize, place: usize, name: u32) -> u64 {
        let clock = self.clock(number, place);
        self.outputs.word(universe, &clock, name)
    }
}
