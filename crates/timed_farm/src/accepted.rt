//! The timed run of an accepted plan.

ghost use Rattle.std.specs.Prelude.{◌≡◌, IfOk, length};
ghost use Rattle.plan_model.specs.Common.{Reachable};
ghost use Rattle.timed_run.specs.Beginning.{beginning, from_start};
ghost use Rattle.timed_run.specs.Path.{IsCriticalPath};
ghost use Rattle.timed_run.specs.Timed.{IsTimedRun, IsOnlyTimedRun};

use crate::at_work::AtWork;
use farm_core::Core;
use plan_verifier::Accepted;
use std::alloc::{AllocError, Global};
use timed_run::{TimedRun, critical_path, timed_run, timed_run_from};

/// How long an accepted plan takes, or what is left of it, and what that hangs on.
#[derive(Drop)]
pub struct PlanTime {
    /// The run in which each event takes its cost as time and each lane goes on as soon as it can.
    pub run: TimedRun,
    /// Its critical path, as the numbers of events, the last event first. It is empty where no event
    /// ends at the end of the run.
    pub path: Vec<usize>,
}

/// The timed run of an accepted plan, with its critical path.
pub fn accepted_timed_run(alloc: Global, accepted: &Accepted) -> Result<PlanTime, AllocError>
    ensures run { IfOk result (λ time. IsTimedRun accepted.now.universe accepted.now.plan
        (from_start accepted.now.universe accepted.now.plan) time.run.events.items
        time.run.end) }
    ensures unique { IfOk result (λ time. IsOnlyTimedRun accepted.now.universe accepted.now.plan
        (from_start accepted.now.universe accepted.now.plan) time.run.events.items
        time.run.end) }
    ensures path { IfOk result (λ time. IsCriticalPath accepted.now.universe accepted.now.plan
        (from_start accepted.now.universe accepted.now.plan) time.run.events.items time.run.end
        time.path.items) }
{
    accepted.keeps();
    accepted.every_interleaving();
    let plan = accepted.plan();
    let lanes = plan.lanes();
    let _count = plan.count();
    let mut farm = AtWork::open(alloc, accepted.universe(), plan)?;
    let run = timed_run(alloc, &mut farm, lanes)?;
    let path = critical_path(alloc, &farm, &run)?;
    Ok(PlanTime { run, path })
}

/// The timed run of what is left of an accepted plan, with its critical path: from the state that a
/// core of the plan has come to, where by lane it is free from a time on, in steps. What is under
/// way in a lane is done in that state, and takes the lane's first steps.
pub fn timed_run_of(
    alloc: Global,
    accepted: &Accepted,
    core: Core<'_>,
    free: &[u64],
) -> Result<PlanTime, AllocError>
    requires universe { core.universe ≡ accepted.now.universe }
    requires plan { core.plan.lanes ≡ accepted.now.plan }
    requires reached { Reachable accepted.now.universe accepted.now.plan core.state }
    requires lanes { length free.now ≡ length accepted.now.plan }
    ensures run { IfOk result (λ time. IsTimedRun accepted.now.universe accepted.now.plan
        (beginning core.entry.state free.now) time.run.events.items time.run.end) }
    ensures unique { IfOk result (λ time. IsOnlyTimedRun accepted.now.universe accepted.now.plan
        (beginning core.entry.state free.now) time.run.events.items time.run.end) }
    ensures path { IfOk result (λ time. IsCriticalPath accepted.now.universe accepted.now.plan
        (beginning core.entry.state free.now) time.run.events.items time.run.end time.path.items) }
{
    accepted.keeps();
    accepted.every_interleaving();
    let _count = accepted.plan().count();
    let mut farm = AtWork::of(alloc, core)?;
    let run = timed_run_from(alloc, &mut farm, free)?;
    let path = critical_path(alloc, &farm, &run)?;
    Ok(PlanTime { run, path })
}
