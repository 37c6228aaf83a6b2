//! The timed run of a safe plan.

ghost use Rattle.std.specs.Prelude.{◌≡◌, ◌<◌, ◌^◌, IfOk, OnOk, length};
ghost use Rattle.plan_model.specs.Common.{count, IsSafe, start, IsSound, Reachable};
ghost use Rattle.timed_run.specs.Beginning.{Beginning, beginning, from_start};
ghost use Rattle.timed_run.specs.Clocks.{AreFresh, IsTiming, fresh};
ghost use Rattle.timed_run.specs.Ended.{IsEnded, IsLastFree, IsLastEnd};
ghost use Rattle.timed_run.specs.Timed.{IsTimedRun, IsOnlyTimedRun};

use crate::advance::advance;
use crate::earliest::earliest;
use crate::farm::Farm;
use crate::{Clock, Event};
use std::alloc::{AllocError, Global};

/// A timed run of a plan. Times are in steps from its beginning.
#[derive(Drop)]
pub struct TimedRun {
    /// The events in the order in which they came: an output by when it ended, anything else by when
    /// it began, outputs first where both are at one time, and then by lanes in file order.
    pub events: Vec<Event>,
    /// When the last event ends, and each lane is free.
    pub end: u128,
}

/// A lane that is free from this time on.
fn fresh(time: u64) -> Clock
    ensures { result ≡ fresh time }
{
    let free = time as u128;
    Clock {
        free,
        next: free,
        awake: true,
    }
}

/// The lanes that are free from these times on.
fn fresh_lanes(alloc: Global, free: &[u64]) -> Result<Vec<Clock>, AllocError>
    ensures { IfOk result (λ clocks. AreFresh free.now (length free.now) clocks.items) }
{
    let mut clocks = Vec::new(alloc);
    for lane in 0..free.len() {
        clocks.push(fresh(free[lane]))?;
    }
    Ok(clocks)
}

/// Takes one event after another until all lanes have ended.
fn play<F: Farm>(
    farm: &mut F,
    clocks: &mut Vec<Clock>,
    events: &mut Vec<Event>,
) -> Result<(), AllocError>
    requires sound { IsSound (F.universe farm.old) (F.plan farm.old) }
    requires safe { IsSafe (F.universe farm.old) (F.plan farm.old) }
    requires counted { count (F.universe farm.old) (F.plan farm.old) < 2 ^ 64 }
    requires timing { (b : Beginning) × IsTiming (F.universe farm.old) (F.plan farm.old) b
        events.old.items (F.state farm.old) clocks.old.items }
    ensures universe { F.universe farm.new ≡ F.universe farm.old }
    ensures plan { F.plan farm.new ≡ F.plan farm.old }
    ensures ended { OnOk result ((b : Beginning)
        → IsTiming (F.universe farm.old) (F.plan farm.old) b events.old.items
        (F.state farm.old) clocks.old.items
        → IsEnded (F.universe farm.old) (F.plan farm.old) b events.new.items) }
{
    while let Some(lane) = earliest(farm, clocks) {
        advance(farm, clocks, events, lane)?;
    }
    Ok(())
}

/// The last of the times at which lanes are first free, 0 where there is no lane.
fn last_free(free: &[u64]) -> u64
    ensures { IsLastFree free.now result }
{
    let mut last = 0;
    for time in free {
        last = (*time).max(last);
    }
    last
}

/// The greatest end of these events, or this time where none ends later.
fn last_end(first: u64, events: &[Event]) -> u128
    ensures { IsLastEnd first events.now result }
{
    let mut end = first as u128;
    for event in events {
        end = event.end.max(end);
    }
    end
}

/// The timed run of a safe plan from the state that its farm has come to, where by lane the state
/// leaves it free from a time on, in steps: what is under way there is done in the state, and takes
/// the lane's first steps. Each event takes its cost in steps as time, each lane goes on as soon as
/// it can, and all come to their ends.
pub fn timed_run_from<F: Farm>(
    alloc: Global,
    farm: &mut F,
    free: &[u64],
) -> Result<TimedRun, AllocError>
    requires sound { IsSound (F.universe farm.old) (F.plan farm.old) }
    requires safe { IsSafe (F.universe farm.old) (F.plan farm.old) }
    requires counted { count (F.universe farm.old) (F.plan farm.old) < 2 ^ 64 }
    requires reached { Reachable (F.universe farm.old) (F.plan farm.old) (F.state farm.old) }
    requires lanes { length free.now ≡ length (F.plan farm.old) }
    ensures universe { F.universe farm.new ≡ F.universe farm.old }
    ensures plan { F.plan farm.new ≡ F.plan farm.old }
    ensures run { IfOk result (λ run. IsTimedRun (F.universe farm.old) (F.plan farm.old)
        (beginning (F.state farm.old) free.now) run.events.items run.end) }
    ensures unique { IfOk result (λ run. IsOnlyTimedRun (F.universe farm.old) (F.plan farm.old)
        (beginning (F.state farm.old) free.now) run.events.items run.end) }
{
    let mut clocks = fresh_lanes(alloc, free)?;
    let mut events = Vec::new(alloc);
    play(farm, &mut clocks, &mut events)?;
    let end = last_end(last_free(free), &events);
    Ok(TimedRun { events, end })
}

/// The timed run of a safe plan, by a farm of so many lanes at its beginning: each event takes its
/// cost in steps as time, each lane goes on as soon as it can, and all come to their ends.
pub fn timed_run<F: Farm>(alloc: Global, farm: &mut F, lanes: usize) -> Result<TimedRun, AllocError>
    requires sound { IsSound (F.universe farm.old) (F.plan farm.old) }
    requires safe { IsSafe (F.universe farm.old) (F.plan farm.old) }
    requires counted { count (F.universe farm.old) (F.plan farm.old) < 2 ^ 64 }
    requires begins { F.state farm.old ≡ start (F.universe farm.old) (F.plan farm.old) }
    requires lanes { lanes ≡ length (F.plan farm.old) }
    ensures universe { F.universe farm.new ≡ F.universe farm.old }
    ensures plan { F.plan farm.new ≡ F.plan farm.old }
    ensures run { IfOk result (λ run. IsTimedRun (F.universe farm.old) (F.plan farm.old)
        (from_start (F.universe farm.old) (F.plan farm.old)) run.events.items run.end) }
    ensures unique { IfOk result (λ run. IsOnlyTimedRun (F.universe farm.old) (F.plan farm.old)
        (from_start (F.universe farm.old) (F.plan farm.old)) run.events.items run.end) }
{
    let free = vec![in alloc; 0; lanes]?;
    timed_run_from(alloc, farm, &free)
}
