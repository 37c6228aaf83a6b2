//! The lanes of a timed run.

ghost use Rattle.std.specs.Prelude.{◌≡◌, [], IfOk, OnOk};
ghost use Rattle.timeline.specs.LaneTimes.{time_with, AreBehind, AreLanes};

use crate::timed_plan::waited;
use std::alloc::{AllocError, Global};
use timed_run::Event;

/// How long a lane takes, in steps: until its last event ends, and how much of that it is busy and
/// how much it waits.
#[derive(Clone, Copy, PartialEq, Eq)]
pub struct LaneTime {
    pub end: u128,
    pub busy: u128,
    pub idle: u128,
}

/// A lane in a timed run: its times, and the numbers of its events, the first one first.
#[derive(Drop)]
pub struct LaneFacts {
    pub time: LaneTime,
    pub events: Vec<usize>,
}

/// The times of a lane behind one event more, of whatever lane.
fn with_event(time: LaneTime, lane: usize, event: &Event) -> LaneTime
    ensures { result ≡ time_with lane time event.now }
{
    if event.lane != lane {
        return time;
    }
    let took = event.end.saturating_sub(event.begin);
    LaneTime {
        end: event.end,
        busy: time.busy.saturating_add(took),
        idle: time.idle.saturating_add(waited(event)),
    }
}

/// So many lanes that have no event.
fn idle_lanes(alloc: Global, count: usize) -> Result<Vec<LaneFacts>, AllocError>
    ensures { IfOk result (λ lanes. AreLanes [] count lanes.items) }
{
    let time = LaneTime {
        end: 0,
        busy: 0,
        idle: 0,
    };
    let mut lanes = Vec::new(alloc);
    for _ in 0..count {
        lanes.push(LaneFacts {
            time,
            events: Vec::new(alloc),
        })?;
    }
    Ok(lanes)
}

/// Adds an event to its lane, if that is one of these.
fn add_event(lanes: &mut Vec<LaneFacts>, number: usize, event: &Event) -> Result<(), AllocError>
    ensures { OnOk result (AreBehind event.now lanes.old.items lanes.new.items) }
{
    if event.lane >= lanes.len() {
        return Ok(());
    }
    let lane = &mut lanes[event.lane];
    lane.time = with_event(lane.time, event.lane, event);
    lane.events.push(number)?;
    Ok(())
}

/// So many lanes of a run, in their order. The events are gone through once, however many lanes
/// there are.
pub(crate) fn lanes_of(
    alloc: Global,
    events: &[Event],
    count: usize,
) -> Result<Vec<LaneFacts>, AllocError>
    ensures { IfOk result (λ lanes. AreLanes events.now count lanes.items) }
{
    let mut lanes = idle_lanes(alloc, count)?;
    for number in 0..events.len() {
        add_event(&mut lanes, number, &events[number])?;
    }
    Ok(lanes)
}

/// Notes an event as the last one of its lane, and tells which one was that before.
fn note_last(last: &mut Vec<Option<usize>>, number: usize, event: &Event) -> Option<usize> {
    let place = last.get_mut(event.lane)?;
    let before = *place;
    *place = Some(number);
    before
}

/// By event: the number of that before it in its lane, where there are so many lanes.
pub(crate) fn before_in_lane(
    alloc: Global,
    events: &[Event],
    count: usize,
) -> Result<Vec<Option<usize>>, AllocError> {
    let mut last = vec![in alloc; None; count]?;
    let mut before = Vec::new(alloc);
    for number in 0..events.len() {
        before.push(note_last(&mut last, number, &events[number]))?;
    }
    Ok(before)
}
