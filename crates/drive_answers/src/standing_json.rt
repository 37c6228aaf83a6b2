//! Where a run stands, as JSON. Its members are put behind a text at once: a value of them all would
//! take many times the memory of the text.

use crate::standing_facts::{Facts, LaneFacts, Output, Told, number_of};
use crate::standing_lines::{push_count, push_number};
use crate::standing_times::LaneTime;
use deb_text::push_pieces;
use drive_replay::Standing;
use plan_reader::{lane_name, push_variant};
use shown_text::text_value;
use std::alloc::{AllocError, Global};

/// Puts a name, in quotes and with what stands around it, and a text behind another.
fn push_text(
    alloc: Global,
    text: &mut Vec<u8>,
    name: &[u8],
    value: &[u8],
) -> Result<(), AllocError> {
    let value = text_value(alloc, value)?.to_vec(alloc)?;
    push_pieces(text, &[name, &value])
}

/// Puts a variant and the lane that publishes it behind a text.
fn push_output(
    alloc: Global,
    text: &mut Vec<u8>,
    told: Told<'_>,
    output: Output,
) -> Result<(), AllocError> {
    let mut words = Vec::new(alloc);
    push_variant(&mut words, told.universe, output.variant)?;
    let name = lane_name(told.plan, output.lane);
    push_text(alloc, text, b"{\"lane\":", name)?;
    push_text(alloc, text, b",\"variant\":", &words)?;
    push_pieces(text, &[b"}"])
}

/// Puts what is published behind a text.
fn push_published(
    alloc: Global,
    text: &mut Vec<u8>,
    told: Told<'_>,
    outputs: &[Output],
) -> Result<(), AllocError> {
    let mut comma: &[u8] = b"";
    for output in outputs {
        push_pieces(text, &[comma])?;
        push_output(alloc, text, told, *output)?;
        comma = b",";
    }
    Ok(())
}

/// Puts the names of recipes behind a text.
fn push_recipes(
    alloc: Global,
    text: &mut Vec<u8>,
    told: Told<'_>,
    recipes: &[u32],
) -> Result<(), AllocError> {
    let mut comma: &[u8] = b"";
    for recipe in recipes {
        push_text(alloc, text, comma, told.universe.recipe_name(*recipe))?;
        comma = b",";
    }
    Ok(())
}

fn state_word(facts: &LaneFacts) -> &'static [u8] {
    match facts.standing {
        Standing::Open(_) if facts.failed => b"failed",
        Standing::Open(_) => b"asked",
        Standing::Next(_) => b"next",
        Standing::Waits(_) => b"waits",
        Standing::Ended => b"finished",
    }
}

/// Puts the words of what a lane is at behind a text, and what it waits for.
fn push_words(
    alloc: Global,
    text: &mut Vec<u8>,
    told: Told<'_>,
    facts: &LaneFacts,
) -> Result<(), AllocError> {
    if number_of(facts.standing).is_some() {
        push_text(alloc, text, b",\"text\":", &facts.text)?;
    }
    if let Some(output) = facts.awaited {
        push_pieces(text, &[b",\"waits_for\":"])?;
        push_output(alloc, text, told, output)?;
    }
    Ok(())
}

/// Puts what a lane is at behind a text, and when it ends: nothing where it has ended.
fn push_place(
    text: &mut Vec<u8>,
    facts: &LaneFacts,
    time: Option<LaneTime>,
) -> Result<(), AllocError> {
    let Some(number) = number_of(facts.standing) else {
        return Ok(());
    };
    if let Some(time) = time {
        push_count(text, b",\"ends\":", time.end)?;
    }
    push_number(text, b",\"instruction\":", number)?;
    match time {
        Some(time) => push_count(text, b",\"left\":", time.left),
        None => Ok(()),
    }
}

/// Puts a lane behind a text.
fn push_lane(
    alloc: Global,
    text: &mut Vec<u8>,
    told: Told<'_>,
    lane: usize,
    facts: &LaneFacts,
) -> Result<(), AllocError> {
    push_number(text, b"{\"at\":", facts.at)?;
    push_place(text, facts, told.time(lane))?;
    let name = lane_name(told.plan, lane);
    push_text(alloc, text, b",\"name\":", name)?;
    push_number(text, b",\"of\":", facts.of)?;
    if let Some(since) = facts.since {
        push_number(text, b",\"since\":", since)?;
    }
    push_number(text, b",\"spent\":", facts.spent)?;
    push_text(alloc, text, b",\"state\":", state_word(facts))?;
    push_words(alloc, text, told, facts)?;
    push_pieces(text, &[b"}"])
}

fn push_lanes(
    alloc: Global,
    text: &mut Vec<u8>,
    told: Told<'_>,
    lanes: &[LaneFacts],
) -> Result<(), AllocError> {
    let mut comma: &[u8] = b"";
    for lane in 0..lanes.len() {
        push_pieces(text, &[comma])?;
        push_lane(alloc, text, told, lane, &lanes[lane])?;
        comma = b",";
    }
    Ok(())
}

/// Where a run stands as one JSON object, and a newline: what is done, published and built, its
/// lanes, and its name, if it has begun.
pub fn status_json(alloc: Global, told: Told<'_>, facts: &Facts) -> Result<Vec<u8>, AllocError> {
    let mut text = Vec::new(alloc);
    push_number(&mut text, b"{\"done\":", facts.progress.done)?;
    if let Some(run) = &facts.next_run {
        push_text(alloc, &mut text, b",\"ended\":", run.as_slice())?;
    }
    if let Some(times) = told.times {
        push_count(&mut text, b",\"ends\":", times.end)?;
    }
    push_pieces(&mut text, &[b",\"lanes\":["])?;
    push_lanes(alloc, &mut text, told, &facts.lanes)?;
    push_number(&mut text, b"],\"of_steps\":", facts.progress.of_steps)?;
    if let Some(times) = told.times {
        push_pieces(&mut text, &[b",\"path\":["])?;
        push_recipes(alloc, &mut text, told, &times.path)?;
        push_pieces(&mut text, &[b"]"])?;
    }
    push_pieces(&mut text, &[b",\"published\":["])?;
    push_published(alloc, &mut text, told, &facts.published)?;
    push_number(&mut text, b"],\"recipes\":", facts.progress.recipes)?;
    if let Some(name) = told.name {
        push_text(alloc, &mut text, b",\"run\":", name)?;
    }
    if let Some(seconds) = facts.seconds {
        push_number(&mut text, b",\"seconds\":", seconds)?;
    }
    push_number(&mut text, b",\"steps\":", facts.progress.steps)?;
    push_pieces(&mut text, &[b",\"unpublished\":["])?;
    push_recipes(alloc, &mut text, told, &facts.unpublished)?;
    push_pieces(&mut text, &[b"]}\n"])?;
    Ok(text)
}
