//! An accepted plan, which keeps its promise in its type.

ghost use Rattle.std.specs.Prelude.{◌≡◌, ◌<◌, ◌≤◌, length};
ghost use Rattle.plan_model.specs.Common.{PlaysSafely, lane_cost, lane, count, IsSafe};
ghost use Rattle.plan_verifier.specs.Accepted.{IsAccepted, StaysForeseen, known_rows};
ghost use Rattle.plan_verifier.specs.Examined.{accepted_with, IsGrounds};

use crate::examined::{Examined, Grounds};
use farm_universe::Universe;
use known_rows::Known;
use plan_reader::Plan;
use std::marker::Model;

/// A plan that was accepted, with the universe that it is about: one that was examined, and what
/// its acceptance rests on.
#[derive(Drop)]
pub struct Accepted {
    examined: Examined,
    grounds: Grounds,
}

impl Model for Accepted {
    ghost use Rattle.plan_verifier.specs.Accepted.{AcceptedPlan, IsAccepted};

    ghost Value = { AcceptedPlan };

    ghost view = { λ a. record {
      universe = a.examined.universe;
      plan = a.examined.plan;
      known = a.examined.known;
      order = a.grounds.order.items;
      costs = a.grounds.costs.items;
    } };

    ghost invariant = { λ a. IsAccepted (record {
      universe = a.examined.universe;
      plan = a.examined.plan;
      known = a.examined.known;
      order = a.grounds.order.items;
      costs = a.grounds.costs.items;
    }) };
}

impl Accepted {
    /// Accepts an examined plan by its grounds.
    pub(crate) fn new(examined: Examined, grounds: Grounds) -> Accepted
        requires { IsGrounds examined grounds }
        ensures { result ≡ accepted_with examined grounds.order.items grounds.costs.items }
    {
        Accepted { examined, grounds }
    }

    /// The universe of the packages, the sources and the farm.
    pub fn universe(&self) -> &Universe
        ensures { result.now ≡ self.now.universe }
    {
        self.examined.universe()
    }

    /// The plan.
    pub fn plan(&self) -> &Plan
        ensures lanes { result.now.lanes ≡ self.now.plan }
        ensures counted { result.now.count ≡ count self.now.universe self.now.plan }
    {
        self.examined.plan()
    }

    /// What each lane knows of the archive at each place.
    pub fn known(&self) -> &Known
        ensures { result.now ≡ self.now.known }
    {
        self.examined.known()
    }

    /// The lanes in an order of their waits and outputs: taken in it, each lane gets past its last.
    pub fn order(&self) -> &[u32]
        ensures { result.now ≡ self.now.order }
    {
        self.grounds.order.as_slice()
    }

    /// What a lane spends at most, in steps, for a number below the plan's `lanes`. It is within
    /// the lane's budget.
    #[tactic(auto, using(crate::proofs::Promises::cost_within))]
    pub fn lane_cost(&self, number: usize) -> u64
        requires { number < length self.now.plan }
        ensures cost { result
            ≡ lane_cost self.now.universe self.now.plan (known_rows self.now) number }
        ensures within { result ≤ (lane self.now.plan number).budget }
    {
        self.keeps();
        self.grounds.costs[number]
    }

    /// Tells what is kept of an accepted plan. It does nothing.
    pub fn keeps(&self)
        ensures { IsAccepted self.now }
    {
        let _costs = &self.grounds.costs;
    }

    /// The promise: no interleaving of the lanes meets a trap, in every unfinished state some lane
    /// can step, and no run is longer than the plan's count of events. It does nothing.
    #[tactic(auto, using(crate::proofs::Promises::safe_of))]
    pub fn every_interleaving(&self)
        ensures { IsSafe self.now.universe self.now.plan }
    {
        self.keeps();
    }

    /// What holds of each state that a run reaches: the archive and the chroots are what the known
    /// rows and the may maps foresee, and each lane has spent at most its cost, which is within its
    /// budget. It does nothing.
    #[tactic(auto, using(crate::proofs::Promises::stays_foreseen))]
    pub fn every_state(&self)
        ensures { StaysForeseen self.now }
    {
        self.keeps();
    }

    /// No schedule meets a trap, whatever lane numbers it has. It does nothing.
    #[tactic(auto, using(crate::proofs::Promises::plays_safely))]
    pub fn every_schedule(&self)
        ensures { PlaysSafely self.now.universe self.now.plan }
    {
        self.keeps();
    }
}
