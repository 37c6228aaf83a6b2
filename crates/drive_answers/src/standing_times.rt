//! When the lanes of a run end that goes on: the timed run of what is left.

ghost use Rattle.std.specs.Prelude.{◌≡◌, IfOk, length};
ghost use Rattle.drive_answers.specs.Statuses.{IsCoreOf};

use drive_replay::Follower;
use farm_core::Core;
use plan_reader::{Instruction, Plan};
use plan_verifier::Accepted;
use std::alloc::{AllocError, Global};
use timed_farm::{Event, PlanTime, timed_run_of};

/// The steps that a lane has left, and when it ends, from now on.
#[derive(Clone, Copy)]
pub struct LaneTime {
    pub left: u128,
    pub end: u128,
}

/// When what is left of a run ends: each lane, the run, and the recipes that are built on its
/// critical path, in their order.
#[derive(Drop)]
pub struct Times {
    pub lanes: Vec<LaneTime>,
    pub end: u128,
    pub path: Vec<u32>,
}

/// What is under way in each lane: the steps that it takes from now on.
pub fn open_costs(alloc: Global, run: &Follower<'_>) -> Result<Vec<u64>, AllocError>
    ensures { IfOk result (λ costs. length costs.items ≡ length run.now.core.plan.lanes) }
{
    let mut costs = Vec::new(alloc);
    for lane in 0..run.core.plan().lanes() {
        costs.push(run.open_cost(lane as u32))?;
    }
    Ok(costs)
}

/// Counts an event of its lane.
fn count(lanes: &mut Vec<LaneTime>, event: &Event) {
    if let Some(lane) = lanes.get_mut(event.lane) {
        lane.left = lane
            .left
            .saturating_add(event.end.saturating_sub(event.begin));
        lane.end = event.end;
    }
}

/// The times of lanes that are under way until then, behind these events.
fn lane_times(alloc: Global, free: &[u64], events: &[Event]) -> Result<Vec<LaneTime>, AllocError> {
    let mut lanes = Vec::new(alloc);
    for time in free {
        lanes.push(LaneTime {
            left: u128::from(*time),
            end: u128::from(*time),
        })?;
    }
    for event in events {
        count(&mut lanes, event);
    }
    Ok(lanes)
}

/// The recipe that an event builds.
fn built_by(plan: &Plan, event: &Event) -> Option<u32> {
    if event.lane >= plan.lanes() {
        return None;
    }
    match plan
        .lane(event.lane)
        .instructions()
        .get(event.place as usize)
    {
        Some(Instruction::Build(recipe)) => Some(*recipe),
        _ => None,
    }
}

/// The recipes that are built on a critical path, whose last event comes first.
fn builds_on(alloc: Global, plan: &Plan, time: &PlanTime) -> Result<Vec<u32>, AllocError> {
    let mut recipes = Vec::new(alloc);
    let path = time.path.as_slice();
    for step in 0..path.len() {
        let Some(event) = time.run.events.get(path[path.len() - 1 - step]) else {
            continue;
        };
        if let Some(recipe) = built_by(plan, event) {
            recipes.push(recipe)?;
        }
    }
    Ok(recipes)
}

/// When what is left of an accepted plan ends, from the state that a core of it has come to, where
/// each lane is under way for so many steps.
pub fn times_of(
    alloc: Global,
    accepted: &Accepted,
    core: Core<'_>,
    free: &[u64],
) -> Result<Times, AllocError>
    requires reached { IsCoreOf accepted.now core }
    requires lanes { length free.now ≡ length accepted.now.plan }
{
    let time = timed_run_of(alloc, accepted, core, free)?;
    Ok(Times {
        lanes: lane_times(alloc, free, &time.run.events)?,
        end: time.run.end,
        path: builds_on(alloc, accepted.plan(), &time)?,
    })
}
