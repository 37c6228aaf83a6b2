//! The critical path of a timed run.

ghost use Rattle.std.specs.Prelude.{◌≡◌, ◌<◌, ◌≤◌, ℕ, suc, true, false, Some, None, IfOk, length, slice_get};
ghost use Rattle.plan_model.specs.Sound.{IsSound};
ghost use Rattle.timed_run.specs.Beginning.{Beginning};
ghost use Rattle.timed_run.specs.Path.{NoneFrom, LetsOn, Follows, BeginsFirst, NoneEnds, IsCriticalPath};
ghost use Rattle.timed_run.specs.Timed.{AreTimed, IsTimedRun};
ghost use Rattle.timed_run.specs.declared.event.Event.{Event};
ghost use Rattle.timed_run.specs.Links.{nearest_of, IsInLane, IsLast};

use crate::Event;
use crate::farm::Farm;
use crate::run::TimedRun;
use std::alloc::{AllocError, Global};

/// The event before another in its lane, if there is one.
fn ahead_in_lane(events: &[Event], number: usize) -> Option<usize>
    requires { number < length events.now }
    ensures none { result ≡ None → (e : Event) → slice_get events.now number ≡ Some e
        → NoneFrom events.now e.lane 0 number }
    ensures some { (j : ℕ) → result ≡ Some j → IsInLane events.now j number }
{
    let lane = events[number].lane;
    let mut other = number;
    while other > 0 {
        other -= 1;
        if events[other].lane == lane {
            return Some(other);
        }
    }
    None
}

/// Tells whether an event is an output that lets another pass where that begins.
fn lets_on<F: Farm>(farm: &F, events: &[Event], other: usize, number: usize) -> bool
    requires other { other < length events.now }
    requires there { number < length events.now }
    requires sound { IsSound (F.universe farm.now) (F.plan farm.now) }
    requires timed { (b : Beginning) × AreTimed (F.universe farm.now) (F.plan farm.now) b
        events.now }
    ensures lets { result ≡ true
        → LetsOn (F.universe farm.now) (F.plan farm.now) events.now other number }
    ensures not { result ≡ false
        → LetsOn (F.universe farm.now) (F.plan farm.now) events.now other number → ⊥ }
{
    let ahead = events[other];
    let event = events[number];
    if ahead.end != event.begin {
        return false;
    }
    match ahead.output {
        Some(variant) => farm.lets_pass(event.lane, event.place, variant),
        None => false,
    }
}

/// The number of an event, of all events the nearest before this one first, and those behind last.
fn nearest(number: usize, step: usize) -> usize
    ensures { result ≡ nearest_of number step }
{
    if step < number {
        number - 1 - step
    } else {
        step
    }
}

/// An output that lets an event pass where it begins, the nearest one before it if there are several.
fn output_ahead<F: Farm>(farm: &F, events: &[Event], number: usize) -> Option<usize>
    requires there { number < length events.now }
    requires sound { IsSound (F.universe farm.now) (F.plan farm.now) }
    requires timed { (b : Beginning) × AreTimed (F.universe farm.now) (F.plan farm.now) b
        events.now }
    ensures none { result ≡ None
        → (j : ℕ) → LetsOn (F.universe farm.now) (F.plan farm.now) events.now j number → ⊥ }
    ensures some { (j : ℕ) → result ≡ Some j
        → LetsOn (F.universe farm.now) (F.plan farm.now) events.now j number }
{
    for step in 0..events.len() {
        let other = nearest(number, step);
        if lets_on(farm, events, other, number) {
            return Some(other);
        }
    }
    None
}

/// What an event goes on behind: the event before it in its lane, or the output that it waited for.
fn ahead<F: Farm>(farm: &F, events: &[Event], number: usize) -> Option<usize>
    requires there { number < length events.now }
    requires sound { IsSound (F.universe farm.now) (F.plan farm.now) }
    requires timed { (b : Beginning) × AreTimed (F.universe farm.now) (F.plan farm.now) b
        events.now }
    ensures none { result ≡ None → (b : Beginning)
        → AreTimed (F.universe farm.now) (F.plan farm.now) b events.now
        → BeginsFirst b events.now number }
    ensures some { (j : ℕ) → result ≡ Some j
        → Follows (F.universe farm.now) (F.plan farm.now) events.now j number }
{
    if events[number].free < events[number].begin {
        return output_ahead(farm, events, number);
    }
    ahead_in_lane(events, number)
}

/// The first of the events that end last.
fn last_of(events: &[Event], end: u128) -> Option<usize>
    ensures none { result ≡ None → NoneEnds events.now end }
    ensures some { (k : ℕ) → result ≡ Some k → IsLast events.now k end }
{
    for number in 0..events.len() {
        if events[number].end == end {
            return Some(number);
        }
    }
    None
}

/// The critical path of a timed run, as the numbers of its events, the last event first: the chain
/// of events to the end of the run, each of which begins when that ahead of it ends, and the first
/// when its lane is first free, at time 0 in a run from the beginning of the plan. It is empty where
/// no event ends at the end of the run.
pub fn critical_path<F: Farm>(
    alloc: Global,
    farm: &F,
    run: &TimedRun,
) -> Result<Vec<usize>, AllocError>
    requires sound { IsSound (F.universe farm.now) (F.plan farm.now) }
    requires run { (b : Beginning) × IsTimedRun (F.universe farm.now) (F.plan farm.now) b
        run.now.events.items run.now.end }
    ensures { IfOk result (λ path. (b : Beginning)
        → IsTimedRun (F.universe farm.now) (F.plan farm.now) b run.now.events.items run.now.end
        → IsCriticalPath (F.universe farm.now) (F.plan farm.now) b run.now.events.items
        run.now.end path.items) }
{
    let events = run.events.as_slice();
    let mut path = Vec::new(alloc);
    let mut next = last_of(events, run.end);
    while let Some(number) = next {
        path.push(number)?;
        next = ahead(farm, events, number);
    }
    Ok(path)
}
