//! What a timed run shows.

ghost use Rattle.std.specs.Prelude.{IfOk, length};
ghost use Rattle.timeline.specs.LaneTimes.{AreLanes};

use crate::causes::causes;
use crate::lanes::{LaneFacts, before_in_lane, lanes_of};
use crate::slack::slacks;
use crate::timed_plan::TimedPlan;
use std::alloc::{AllocError, Global};

/// What a timed run shows of its lanes and events.
#[derive(Drop)]
pub struct Facts {
    /// The lanes, in file order.
    pub lanes: Vec<LaneFacts>,
    causes: Vec<Option<usize>>,
    slacks: Vec<u128>,
}

impl Facts {
    /// What a timed run shows.
    pub fn of(alloc: Global, run: &TimedPlan<'_>) -> Result<Facts, AllocError>
        ensures { IfOk result (λ facts. AreLanes run.now.events.now
            (length run.now.plan.now.lanes) facts.lanes.items) }
    {
        let count = run.plan.lanes();
        let lanes = lanes_of(alloc, run.events, count)?;
        let before = before_in_lane(alloc, run.events, count)?;
        let causes = causes(alloc, run)?;
        let slacks = slacks(alloc, run.events, run.end, &before, &causes)?;
        Ok(Facts {
            lanes,
            causes,
            slacks,
        })
    }

    /// The number of the output that lets the event of a number pass, if that is a wait for one: the
    /// first one that satisfies it, and of those that do so at one moment the last one in the order
    /// of the run. None where the archive had such a variant from the start.
    pub fn cause(&self, number: usize) -> Option<usize> {
        *self.causes.get(number)?
    }

    /// How much later the event of a number could end, all else going on as it does, and the run
    /// not end later.
    pub fn slack(&self, number: usize) -> u128 {
        self.slacks.get(number).copied().unwrap_or(0)
    }
}
