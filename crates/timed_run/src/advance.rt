//! The next event of a timed run.

ghost use Rattle.std.specs.Prelude.{◌≡◌, ◌<◌, ◌≤◌, ◌+◌, ◌^◌, Some, None, OnOk, length};
ghost use Rattle.farm_model.specs.declared.types.Variant as model;
ghost use Rattle.plan_model.specs.Common.{count, IsSafe, IsSound};
ghost use Rattle.timed_run.specs.Beginning.{Beginning};
ghost use Rattle.timed_run.specs.Clocks.{IsTiming, IsFirst, work_left};

use crate::farm::Farm;
use crate::wake::wake;
use crate::{Clock, Event};
use farm_model::Variant;
use std::alloc::AllocError;

/// When an event ends that begins at this time: an output takes one step, an instruction its cost.
fn end_of(begin: u128, output: Option<Variant>, cost: u64) -> u128
    requires { begin + 2 ^ 64 ≤ 2 ^ 128 }
    ensures gives { (v : model.Variant) → output ≡ Some v → result ≡ begin + 1 }
    ensures goes { output ≡ None → result ≡ begin + cost }
{
    match output {
        Some(_) => begin + 1,
        None => begin + cost as u128,
    }
}

/// Takes the next event of the lane that has it: an instruction takes its cost as time, and an
/// output one step, behind which it wakes lanes. Or the lane is found waiting or finished, and
/// falls asleep.
pub fn advance<F: Farm>(
    farm: &mut F,
    clocks: &mut Vec<Clock>,
    events: &mut Vec<Event>,
    lane: usize,
) -> Result<(), AllocError>
    requires sound { IsSound (F.universe farm.old) (F.plan farm.old) }
    requires safe { IsSafe (F.universe farm.old) (F.plan farm.old) }
    requires counted { count (F.universe farm.old) (F.plan farm.old) < 2 ^ 64 }
    requires timing { (b : Beginning) × IsTiming (F.universe farm.old) (F.plan farm.old) b
        events.old.items (F.state farm.old) clocks.old.items }
    requires first { IsFirst (F.plan farm.old) (F.state farm.old) clocks.old.items lane
        (length clocks.old.items) }
    ensures universe { F.universe farm.new ≡ F.universe farm.old }
    ensures plan { F.plan farm.new ≡ F.plan farm.old }
    ensures timing { OnOk result ((b : Beginning)
        → IsTiming (F.universe farm.old) (F.plan farm.old) b events.old.items
        (F.state farm.old) clocks.old.items
        → IsTiming (F.universe farm.old) (F.plan farm.old) b events.new.items
        (F.state farm.new) clocks.new.items) }
    ensures less { OnOk result (work_left (count (F.universe farm.old) (F.plan farm.old))
        events.new.items clocks.new.items
        < work_left (count (F.universe farm.old) (F.plan farm.old)) events.old.items
        clocks.old.items) }
{
    let place = farm.done(lane);
    let spent = farm.spent(lane);
    let published = farm.published();
    let clock = clocks[lane];
    if !farm.step(lane) {
        clocks[lane] = Clock {
            free: clock.free,
            next: clock.next,
            awake: false,
        };
        return Ok(());
    }
    let output = farm.output_behind(published);
    let cost = farm.spent(lane).saturating_sub(spent);
    let end = end_of(clock.next, output, cost);
    events.push(Event {
        lane,
        place,
        free: clock.free,
        begin: clock.next,
        end,
        output,
    })?;
    clocks[lane] = Clock {
        free: end,
        next: end,
        awake: true,
    };
    if let Some(variant) = output {
        wake(farm, clocks, variant, end);
    }
    Ok(())
}
