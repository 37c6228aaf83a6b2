//! A timed run, with the plan that it is of.

ghost use Rattle.std.specs.Prelude.{◌≡◌, ◌-◌};

use farm_universe::Universe;
use plan_reader::{Instruction, Plan};
use timed_run::Event;

/// A timed run, with the farm and the plan that it is of. Times are in steps from its beginning.
#[derive(Clone, Copy)]
pub struct TimedPlan<'a> {
    pub universe: &'a Universe,
    pub plan: &'a Plan,
    /// The events, in the order in which they came.
    pub events: &'a [Event],
    /// When the last event ends.
    pub end: u128,
    /// The critical path as numbers of events, the last event first.
    pub path: &'a [usize],
}

/// How long the lane of an event waited before it.
pub fn waited(event: &Event) -> u128
    ensures { result ≡ event.now.begin - event.now.free }
{
    event.begin.saturating_sub(event.free)
}

impl<'a> TimedPlan<'a> {
    /// The event of a number, if there is one.
    pub fn event(&self, number: usize) -> Option<&'a Event> {
        self.events.get(number)
    }

    /// The instruction of an event, if its lane has one there.
    pub fn instruction(&self, event: &Event) -> Option<&'a Instruction> {
        if event.lane < self.plan.lanes() {
            self.plan
                .lane(event.lane)
                .instructions()
                .get(event.place as usize)
        } else {
            None
        }
    }

    /// The recipe that an event builds, if it is a build.
    pub fn built(&self, event: &Event) -> Option<u32> {
        match self.instruction(event) {
            Some(Instruction::Build(recipe)) => Some(*recipe),
            _ => None,
        }
    }
}
