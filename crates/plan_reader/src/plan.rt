//! A plan that was read.

ghost use Rattle.std.specs.Prelude.{◌≡◌, ◌<◌, length};
ghost use Rattle.std.specs.Option.{option_map};
ghost use Rattle.plan_reader.specs.Ends.{IsWithinLimits};
ghost use Rattle.plan_model.specs.Plan.{instruction_at, lane};

use crate::lane::Lane;
use crate::origin::PlanLines;
use plan_model::Instruction;
use std::marker::Model;

/// A plan: its lanes in file order, from which lines of its text they come, and how many events it
/// has.
#[derive(Drop)]
pub struct Plan {
    lanes: Vec<Lane>,
    lines: PlanLines,
    count: usize,
}

impl Model for Plan {
    ghost use Rattle.plan_reader.specs.CountedPlan.{CountedPlan};
    ghost use Rattle.plan_reader.specs.Ends.{IsWithinLimits};

    ghost Value = { CountedPlan };

    ghost view = { λ plan. record {
      lanes = plan.lanes.items;
      lines = plan.lines;
      count = plan.count;
    } };

    ghost invariant = { λ plan. IsWithinLimits plan.lanes.items };
}

impl Plan {
    /// Makes a plan of its lanes, which come from these lines, and whose events are so many.
    pub(crate) fn new(lanes: Vec<Lane>, lines: PlanLines, count: usize) -> Plan
        requires { IsWithinLimits lanes.items }
        ensures { result ≡ record { lanes = lanes.items; lines = lines; count = count } }
    {
        Plan {
            lanes,
            lines,
            count,
        }
    }

    /// How many lanes the plan has, at most [`MOST_LANES`](crate::MOST_LANES).
    pub fn lanes(&self) -> usize
        ensures lanes { result ≡ length self.now.lanes }
        ensures limits { IsWithinLimits self.now.lanes }
    {
        self.lanes.len()
    }

    /// The lane of a number below `lanes`, in file order.
    pub fn lane(&self, number: usize) -> &Lane
        requires { number < length self.now.lanes }
        ensures { result.now ≡ lane self.now.lanes number }
    {
        &self.lanes[number]
    }

    /// The instruction at a place of the lane of a number below `lanes`; none past its last.
    pub fn instruction(&self, number: usize, place: usize) -> Option<&Instruction>
        requires { number < length self.now.lanes }
        ensures { option_map (λ x. x.now) result ≡ instruction_at self.now.lanes number place }
    {
        self.lane(number).instructions().get(place)
    }

    /// From which lines of its text the plan comes.
    pub fn lines(&self) -> &PlanLines
        ensures { result.now ≡ self.now.lines }
    {
        &self.lines
    }

    /// How many events the plan has.
    pub fn count(&self) -> usize
        ensures { result ≡ self.now.count }
    {
        self.count
    }
}

/// The name of a lane; nothing for a number past the last.
pub fn lane_name(plan: &Plan, number: usize) -> &[u8]
    ensures { result.now ≡ (lane plan.now.lanes number).name }
{
    if number < plan.lanes() {
        plan.lane(number).name()
    } else {
        b""
    }
}
