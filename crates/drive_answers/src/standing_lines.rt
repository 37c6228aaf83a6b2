//! Where a run stands, as lines.

use crate::standing_facts::{Facts, LaneFacts, Pace, Progress, Told, number_of};
use crate::standing_times::{LaneTime, Times};
use deb_text::push_pieces;
use drive_replay::Standing;
use itoa::Buffer;
use plan_reader::{lane_name, push_variant};
use std::alloc::{AllocError, Global};

/// Puts words and a number behind a text.
pub(crate) fn push_number(text: &mut Vec<u8>, words: &[u8], number: u64) -> Result<(), AllocError> {
    let mut digits = Buffer::new();
    push_pieces(text, &[words, digits.format(number).as_bytes()])
}

/// The two digits of a number below 60.
fn two_digits(number: u128) -> [u8; 2] {
    [digit_of(number / 10), digit_of(number)]
}

/// The last digit of a number.
fn digit_of(number: u128) -> u8 {
    b'0' + (number % 10) as u8
}

/// Puts words, and seconds as hours, minutes and seconds, behind a text.
pub(crate) fn push_time_span(
    text: &mut Vec<u8>,
    words: &[u8],
    seconds: u128,
) -> Result<(), AllocError> {
    push_count(text, words, seconds / 3600)?;
    push_pieces(text, &[b":", &two_digits(seconds / 60 % 60)])?;
    push_pieces(text, &[b":", &two_digits(seconds % 60)])
}

/// Puts words and steps behind a text.
pub(crate) fn push_count(text: &mut Vec<u8>, words: &[u8], steps: u128) -> Result<(), AllocError> {
    let mut digits = Buffer::new();
    push_pieces(text, &[words, digits.format(steps).as_bytes()])
}

fn push_progress(text: &mut Vec<u8>, progress: Progress) -> Result<(), AllocError> {
    push_number(text, b"published ", progress.published)?;
    push_number(text, b" of ", progress.recipes)?;
    push_number(text, b" recipes, ", progress.steps)?;
    push_number(text, b" of ", progress.of_steps)?;
    push_pieces(text, &[b" steps\n"])
}

/// Puts the line of what is built and not published behind a text, if there is any.
fn push_unpublished(text: &mut Vec<u8>, told: Told<'_>, recipes: &[u32]) -> Result<(), AllocError> {
    if recipes.is_empty() {
        return Ok(());
    }
    push_pieces(text, &[b"built and not published"])?;
    for recipe in recipes {
        push_pieces(text, &[b" ", told.universe.recipe_name(*recipe)])?;
    }
    push_pieces(text, &[b"\n"])
}

/// Puts what a lane waits for behind a text.
fn push_awaited(text: &mut Vec<u8>, told: Told<'_>, facts: &LaneFacts) -> Result<(), AllocError> {
    let Some(awaited) = facts.awaited else {
        return push_pieces(text, &[b", for what no lane publishes any more"]);
    };
    push_pieces(text, &[b", for "])?;
    push_variant(text, told.universe, awaited.variant)?;
    push_pieces(text, &[b" of lane ", lane_name(told.plan, awaited.lane)])
}

/// Puts what is open in a lane behind a text: whether it has failed, and since when it is open, if
/// times are noted.
fn push_open(text: &mut Vec<u8>, number: u64, facts: &LaneFacts) -> Result<(), AllocError> {
    let state: &[u8] = if facts.failed {
        b" failed "
    } else {
        b" asked "
    };
    push_number(text, state, number)?;
    push_pieces(text, &[b" ", &facts.text])?;
    match facts.since {
        Some(since) => push_time_span(text, b" since ", u128::from(since)),
        None => Ok(()),
    }
}

fn push_standing(text: &mut Vec<u8>, told: Told<'_>, facts: &LaneFacts) -> Result<(), AllocError> {
    match facts.standing {
        Standing::Open(number) => push_open(text, number, facts),
        Standing::Next(number) => {
            push_number(text, b" next ", number)?;
            push_pieces(text, &[b" ", &facts.text])
        }
        Standing::Waits(number) => {
            push_number(text, b" waits ", number)?;
            push_pieces(text, &[b" ", &facts.text])?;
            push_awaited(text, told, facts)
        }
        Standing::Ended => push_pieces(text, &[b" finished"]),
    }
}

/// Puts when a lane ends behind a text.
fn push_time(text: &mut Vec<u8>, facts: &LaneFacts, time: LaneTime) -> Result<(), AllocError> {
    if number_of(facts.standing).is_none() {
        return Ok(());
    }
    push_count(text, b", left ", time.left)?;
    push_count(text, b", ends in ", time.end)
}

/// Puts how long so many steps take behind a text, at the pace of the builds that are done: nothing
/// where no times are noted, no build is done, or nothing is left.
fn push_pace(text: &mut Vec<u8>, facts: &Facts, steps: u128) -> Result<(), AllocError> {
    let Pace {
        seconds,
        steps: of_steps,
    } = facts.pace;
    if facts.seconds.is_none() || of_steps == 0 || steps == 0 {
        return Ok(());
    }
    let span = steps.saturating_mul(u128::from(seconds)) / u128::from(of_steps);
    push_time_span(text, b", about ", span)?;
    push_number(text, b" at ", seconds / of_steps)?;
    push_pieces(text, &[b" seconds a step"])
}

/// Puts when a run ends behind a text, and which builds that hangs on.
fn push_end(
    text: &mut Vec<u8>,
    told: Told<'_>,
    facts: &Facts,
    times: &Times,
) -> Result<(), AllocError> {
    push_count(text, b"ends in ", times.end)?;
    push_pace(text, facts, times.end)?;
    push_pieces(text, &[b"\n"])?;
    if times.path.is_empty() {
        return Ok(());
    }
    push_pieces(text, &[b"critical path:"])?;
    for recipe in times.path.as_slice() {
        push_pieces(text, &[b" ", told.universe.recipe_name(*recipe)])?;
    }
    push_pieces(text, &[b"\n"])
}

/// Puts the line of a lane behind a text.
fn push_lane(
    text: &mut Vec<u8>,
    told: Told<'_>,
    lane: usize,
    facts: &LaneFacts,
) -> Result<(), AllocError> {
    push_pieces(text, &[b"lane ", lane_name(told.plan, lane)])?;
    push_number(text, b" at ", facts.at)?;
    push_number(text, b" of ", facts.of)?;
    push_number(text, b" spent ", facts.spent)?;
    push_standing(text, told, facts)?;
    if let Some(time) = told.time(lane) {
        push_time(text, facts, time)?;
    }
    push_pieces(text, &[b"\n"])
}

/// Puts the name of a run behind a text, or that none has begun; and the run that goes on from it.
fn push_name(text: &mut Vec<u8>, told: Told<'_>, facts: &Facts) -> Result<(), AllocError> {
    match told.name {
        Some(name) => push_pieces(text, &[b"run ", name])?,
        None => push_pieces(text, &[b"not begun"])?,
    }
    match &facts.next_run {
        Some(run) => {
            let run = run.as_slice();
            push_pieces(text, &[b" ended, ", run, b" goes on from it\n"])
        }
        None => push_pieces(text, &[b"\n"]),
    }
}

/// Puts how much is done behind a text, and in what time, if times are noted.
fn push_done(text: &mut Vec<u8>, facts: &Facts) -> Result<(), AllocError> {
    push_number(text, b"done ", facts.progress.done)?;
    if let Some(seconds) = facts.seconds {
        push_time_span(text, b" in ", u128::from(seconds))?;
    }
    push_pieces(text, &[b"\n"])
}

/// The lines that say where a run stands: its name, or that none has begun, what is published, built
/// and done, a line for each lane, and when it ends, if that is known.
pub fn status_lines(alloc: Global, told: Told<'_>, facts: &Facts) -> Result<Vec<u8>, AllocError> {
    let mut text = Vec::new(alloc);
    push_name(&mut text, told, facts)?;
    push_progress(&mut text, facts.progress)?;
    push_unpublished(&mut text, told, &facts.unpublished)?;
    push_done(&mut text, facts)?;
    let lanes = facts.lanes.as_slice();
    for lane in 0..lanes.len() {
        push_lane(&mut text, told, lane, &lanes[lane])?;
    }
    if let Some(times) = told.times {
        push_end(&mut text, told, facts, times)?;
    }
    Ok(text)
}
