//! The line of a timed run.

use crate::events::push_events;
use crate::members::{Shown, instruction_number, quoted};
use crate::{Facts, LaneFacts, TimedPlan, push_count};
use deb_text::push_pieces;
use plan_reader::{Plan, lane_name};
use std::alloc::{AllocError, Global};

/// The names of the lanes as JSON has them.
fn lane_names(alloc: Global, plan: &Plan) -> Result<Vec<Vec<u8>>, AllocError> {
    let mut names = Vec::new(alloc);
    for number in 0..plan.lanes() {
        names.push(quoted(alloc, lane_name(plan, number))?)?;
    }
    Ok(names)
}

/// Puts a lane behind a text.
fn push_lane(
    alloc: Global,
    text: &mut Vec<u8>,
    shown: &Shown<'_>,
    number: usize,
    lane: &LaneFacts,
) -> Result<(), AllocError> {
    push_count(text, b"{\"busy\":", lane.time.busy)?;
    push_count(text, b",\"end\":", lane.time.end)?;
    push_pieces(text, &[b",\"events\":["])?;
    push_events(alloc, text, shown, &lane.events)?;
    push_count(text, b"],\"idle\":", lane.time.idle)?;
    push_pieces(text, &[b",\"name\":", shown.name(number), b"}"])
}

/// Puts the lanes behind a text, commas between.
fn push_lanes(alloc: Global, text: &mut Vec<u8>, shown: &Shown<'_>) -> Result<(), AllocError> {
    let mut comma: &[u8] = b"";
    let lanes = shown.facts.lanes.as_slice();
    for number in 0..lanes.len() {
        push_pieces(text, &[comma])?;
        push_lane(alloc, text, shown, number, &lanes[number])?;
        comma = b",";
    }
    Ok(())
}

/// Puts the events of the critical path behind a text, the first one first.
fn push_path(text: &mut Vec<u8>, shown: &Shown<'_>) -> Result<(), AllocError> {
    let mut comma: &[u8] = b"";
    let path = shown.run.path;
    for step in 0..path.len() {
        if let Some(event) = shown.run.event(path[path.len() - 1 - step]) {
            push_pieces(text, &[comma])?;
            push_count(text, b"{\"begin\":", event.begin)?;
            push_count(text, b",\"end\":", event.end)?;
            push_count(text, b",\"instruction\":", instruction_number(event))?;
            push_pieces(text, &[b",\"lane\":", shown.name(event.lane), b"}"])?;
            comma = b",";
        }
    }
    Ok(())
}

/// Gives a timed run as one JSON object, and a newline: when it ends, its lanes with their times and
/// events, and the critical path.
pub fn timeline_json(alloc: Global, run: &TimedPlan<'_>) -> Result<Vec<u8>, AllocError> {
    let facts = Facts::of(alloc, run)?;
    let names = lane_names(alloc, run.plan)?;
    let shown = Shown {
        run,
        facts: &facts,
        names: &names,
    };
    let mut text = Vec::new(alloc);
    push_count(&mut text, b"{\"end\":", run.end)?;
    push_pieces(&mut text, &[b",\"lanes\":["])?;
    push_lanes(alloc, &mut text, &shown)?;
    push_pieces(&mut text, &[b"],\"path\":["])?;
    push_path(&mut text, &shown)?;
    push_pieces(&mut text, &[b"]}\n"])?;
    Ok(text)
}
