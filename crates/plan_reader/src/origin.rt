//! From which lines of its text a plan comes.

ghost use Rattle.std.specs.Prelude.{◌≡◌, slice_get};
ghost use Rattle.std.specs.Option.{option_map};
ghost use Rattle.plan_reader.specs.PlanLines.{origin_at};

use std::marker::Model;

/// The line of an instruction, and for one that a block brings in the line of the `use` in the
/// lane. Lines count from 1.
#[derive(Clone, Copy, PartialEq, Eq)]
pub struct Origin {
    pub line: u32,
    pub used: Option<u32>,
}

/// A lane: the line that opens it, where its instructions come from, and the line of its `end`.
#[derive(Drop)]
pub struct LaneLines {
    pub head: u32,
    pub origins: Vec<Origin>,
    pub end: u32,
}

impl Model for LaneLines {
    ghost use Rattle.plan_reader.specs.PlanLines as spec;

    ghost Value = { spec.LaneLines };

    ghost view = { λ it. record { head = it.head; origins = it.origins.items; end = it.end } };
}

/// From which lines of its text a plan comes. Lanes and the places in them count from 0, and lines
/// from 1.
#[derive(Drop)]
pub struct PlanLines {
    pub(crate) first: u32,
    pub(crate) lanes: Vec<LaneLines>,
}

impl Model for PlanLines {
    ghost use Rattle.plan_reader.specs.PlanLines as spec;

    ghost Value = { spec.PlanLines };

    ghost view = { λ it. record { first = it.first; lanes = it.lanes.items } };
}

impl PlanLines {
    /// The line that says `plan 1`: the first one that is neither blank nor a comment.
    pub fn first(&self) -> u32
        ensures { result ≡ self.now.first }
    {
        self.first
    }

    /// The line that opens a lane.
    pub fn head(&self, lane: usize) -> Option<u32>
        ensures { result ≡ option_map (λ l. l.head) (slice_get self.now.lanes lane) }
    {
        Some(self.lanes.get(lane)?.head)
    }

    /// The line of a lane's `end`.
    pub fn end(&self, lane: usize) -> Option<u32>
        ensures { result ≡ option_map (λ l. l.end) (slice_get self.now.lanes lane) }
    {
        Some(self.lanes.get(lane)?.end)
    }

    /// Where the instruction at a place of a lane comes from.
    pub fn origin(&self, lane: usize, place: usize) -> Option<Origin>
        ensures { result ≡ origin_at self.now.lanes lane place }
    {
        self.lanes.get(lane)?.origins.get(place).copied()
    }
}
