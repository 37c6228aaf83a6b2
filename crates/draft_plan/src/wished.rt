//! Which lanes a plan is to have, and what each is to build.

use std::marker::Model;

/// A lane that is wanted.
#[derive(Drop)]
pub struct WantedLane {
    pub name: Vec<u8>,
    /// The number of its base chroot.
    pub base: u32,
    /// The budget that it is to have, in steps; nothing where that is what it will cost.
    pub budget: Option<u64>,
    /// The recipes that it is to build, in order.
    pub builds: Vec<u32>,
}

impl Model for WantedLane {
    ghost use Rattle.draft_plan.specs.Wished as spec;

    ghost Value = { spec.WantedLane };

    ghost view = { λ lane. record {
      name = lane.name.items;
      base = lane.base;
      budget = lane.budget;
      builds = lane.builds.items;
    } };
}

/// What is wanted of a plan: its lanes in order, and the recipes that any of them may build.
#[derive(Drop)]
pub struct Wanted {
    pub lanes: Vec<WantedLane>,
    pub free: Vec<u32>,
}

impl Model for Wanted {
    ghost use Rattle.draft_plan.specs.Wished as spec;

    ghost Value = { spec.Wanted };

    ghost view = { λ wanted. record { lanes = wanted.lanes.items; free = wanted.free.items } };
}
