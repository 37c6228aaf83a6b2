//! Known rows as a certificate states them: one for each place of a plan at which they change.

ghost use Rattle.std.specs.Prelude.{◌≡◌, ◌<◌, ◌≤◌, ◌↔◌, true, IsTrue, length, slice_index};
ghost use Rattle.cert_text.specs.Certificates.{IsNewRow};
ghost use Rattle.farm_model.specs.Packages.{initial};
ghost use Rattle.farm_model.specs.declared.types.Variant.{Variant};
ghost use Rattle.plan_model.specs.Plan.{lane};
ghost use Rattle.sat_rows.specs.Rows.{IsRowOf};
ghost use Rattle.plan_cert.specs.PlaceRows.{listed_at, place_rows_of, ArePlaceRows};

use bit_rows::Row;
use farm_universe::Universe;
use known_rows::KnownWords;
use plan_reader::Plan;
use std::marker::Model;
use std::snapshot::Snapshot;

/// The places of a lane: for each the number of its row.
#[derive(Drop)]
pub struct LanePlaces {
    numbers: Vec<usize>,
}

impl Model for LanePlaces {
    ghost use Rattle.std.specs.Prelude.{List, ℕ};

    ghost Value = { List ℕ };

    ghost view = { λ places. places.numbers.items };
}

impl LanePlaces {
    /// Makes the places of these row numbers.
    pub fn new(numbers: Vec<usize>) -> LanePlaces
        ensures { result ≡ numbers.items }
    {
        LanePlaces { numbers }
    }

    fn number(&self, place: usize) -> usize
        requires { place < length self.now }
        ensures { result ≡ slice_index self.now place }
    {
        self.numbers[place]
    }
}

/// What each lane of a plan knows of the archive at each place: the initial archive, and a row of
/// what else is there, which need not be those of clocks. Places between which nothing is learned
/// share a row. A contract sees the universe, the plan, the places and the rows.
#[derive(Drop)]
pub struct StatedRows {
    universe: Snapshot<Universe>,
    plan: Snapshot<Plan>,
    places: Vec<LanePlaces>,
    archive: Row,
    rows: Vec<Row>,
}

impl Model for StatedRows {
    ghost use Rattle.farm_model.specs.Packages.{initial};
    ghost use Rattle.sat_rows.specs.Rows.{IsRowOf};
    ghost use Rattle.plan_cert.specs.PlaceRows as spec;
    ghost use Rattle.plan_cert.specs.PlaceRows.{ArePlaceRows};

    ghost Value = { spec.PlaceRows };

    ghost view = { λ stated. record {
      universe = stated.universe.value;
      plan = stated.plan.value.lanes;
      places = stated.places.items;
      listed = stated.rows.items;
    } };

    ghost invariant = { λ stated. ArePlaceRows stated.universe.value stated.plan.value.lanes
        stated.places.items stated.rows.items
        × IsRowOf stated.universe.value (initial stated.universe.value) stated.archive };
}

impl StatedRows {
    /// Puts the initial archive, rows, and the places of each lane together.
    pub fn new(
        universe: &Universe,
        plan: &Plan,
        places: Vec<LanePlaces>,
        archive: Row,
        rows: Vec<Row>,
    ) -> StatedRows
        requires places { ArePlaceRows universe.now plan.now.lanes places.items rows.items }
        requires archive { IsRowOf universe.now (initial universe.now) archive }
        ensures { result ≡ record {
          universe = universe.now;
          plan = plan.now.lanes;
          places = places.items;
          listed = rows.items;
        } }
    {
        StatedRows {
            universe: Snapshot::of(universe),
            plan: Snapshot::of(plan),
            places,
            archive,
            rows,
        }
    }

    /// What a lane knows at a place beside the initial archive: the variants that are there whenever
    /// it stands there.
    pub fn listed(&self, number: usize, place: usize) -> &Row
        requires lane { number < length self.now.plan }
        requires place { place ≤ length (lane self.now.plan number).instructions }
        ensures row { result.now ≡ listed_at self.now number place }
        ensures new { IsNewRow self.now.universe result.now }
    {
        &self.rows[self.places[number].number(place)]
    }

    /// Tells whether two places of a lane share a row.
    fn share_a_row(&self, number: usize, place: usize, other: usize) -> bool
        requires lane { number < length self.now.plan }
        requires place { place ≤ length (lane self.now.plan number).instructions }
        requires other { other ≤ length (lane self.now.plan number).instructions }
        ensures { result ≡ true → listed_at self.now number place ≡ listed_at self.now number other }
    {
        let places = &self.places[number];
        places.number(place) == places.number(other)
    }

    /// Tells whether all that a lane knows at a place is known to it at another, too. Places that
    /// share a row are not compared.
    pub fn knows_within(&self, number: usize, place: usize, other: usize) -> bool
        requires lane { number < length self.now.plan }
        requires place { place ≤ length (lane self.now.plan number).instructions }
        requires other { other ≤ length (lane self.now.plan number).instructions }
        ensures { IsTrue result ↔ ((v : Variant) → place_rows_of self.now number place v ≡ true
            → place_rows_of self.now number other v ≡ true) }
    {
        if self.share_a_row(number, place, other) {
            return true;
        }
        let here = self.listed(number, place);
        let there = self.listed(number, other);
        here.within(there)
    }
}

impl KnownWords for StatedRows {
    ghost known = { λ stated. record {
      universe = stated.universe;
      plan = stated.plan;
      rows = place_rows_of stated;
    } };

    fn word(&self, _universe: &Universe, number: usize, place: usize, name: u32) -> u64 {
        let name = name as usize;
        self.archive.word(name) | self.listed(number, place).word(name)
    }
}
