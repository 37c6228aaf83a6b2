//! The answers to the questions of cases.

use crate::archive::{halted_text, opened_text, seats_text, stopped_text};
use crate::in_turns::{drawn_text, turns_text};
use crate::library::{known_text, library_text};
use crate::manners::{Manner, manner_of};
use crate::ran::{Told, run_by_bell, run_text};
use case_files::{Answers, Case};
use deb_text::read_number;
use farm_executor::cause;
use lane_runner::LaneStop;
use plan_reader::texts_of;
use plan_verifier::{Accepted, Refusal, check};
use std::alloc::{AllocError, Global};
use std::mem::ManuallyDrop;
use std::str;
use std::sync::Wait;
use std::thread::Threads;

const NO_QUESTION: &[u8] = b"no such question\n";

/// The words of a question.
fn words_of(alloc: Global, question: &[u8]) -> Result<Vec<&str>, AllocError> {
    let mut words = Vec::new(alloc);
    for word in question.split(|byte| *byte == b' ') {
        words.push(str::from_utf8(word).unwrap_or("?"))?;
    }
    Ok(words)
}

/// The numbers of a list, divided by commas; one that is none is over all others.
fn numbers_of(alloc: Global, list: &str) -> Result<Vec<usize>, AllocError> {
    let mut numbers = Vec::new(alloc);
    for word in list.as_bytes().split(|byte| *byte == b',') {
        numbers.push(read_number(word).unwrap_or(u64::MAX) as usize)?;
    }
    Ok(numbers)
}

/// The ends of lanes, as `502 2 503 0`.
fn ends_of(alloc: Global, words: &[&str]) -> Result<Vec<LaneStop>, AllocError> {
    let mut ends = Vec::new(alloc);
    let mut code = None;
    for word in words {
        let number = u32::try_from(read_number(word.as_bytes()).unwrap_or(0)).unwrap_or(0);
        code = match code {
            Some(code) => {
                ends.push(LaneStop {
                    code,
                    instruction: number,
                })?;
                None
            }
            None => Some(u16::try_from(number).unwrap_or(0)),
        };
    }
    Ok(ends)
}

/// The cause of such ends, of which a plan has 64 at most.
fn cause_of(ends: &[LaneStop]) -> Option<(u16, u32)> {
    if ends.len() > 64 {
        return None;
    }
    cause(ends)
}

/// The cause of such ends, as a line.
fn cause_text(alloc: Global, words: &[&str]) -> Result<Vec<u8>, AllocError> {
    match cause_of(&ends_of(alloc, words)?) {
        Some((code, lane)) => Ok(format!(in alloc; "{code} lane {lane}\n")?.into_bytes()),
        None => Vec::from_slice(alloc, b"none\n"),
    }
}

/// Runs a farm over a gate of a case, if its words name one.
fn run_over(
    rt: &(impl Threads + Wait + Sync),
    alloc: Global,
    accepted: Accepted,
    told: Told,
    manner: Option<Manner>,
) -> Result<Vec<u8>, AllocError> {
    match manner {
        Some(manner) => run_text(rt, alloc, accepted, manner, told),
        None => {
            let _accepted = ManuallyDrop::new(accepted);
            Vec::from_slice(alloc, NO_QUESTION)
        }
    }
}

/// Answers a question about a run.
fn answer_on_run(
    rt: &(impl Threads + Wait + Sync),
    alloc: Global,
    accepted: Accepted,
    told: Told,
    words: &[&str],
) -> Result<Vec<u8>, AllocError> {
    match words {
        ["bell"] => run_by_bell(rt, alloc, accepted),
        _ => run_over(rt, alloc, accepted, told, manner_of(words)),
    }
}

/// Answers a question that leaves the plan as it is.
fn answer_on_plan(
    rt: &(impl Threads + Wait + Sync),
    alloc: Global,
    accepted: &Accepted,
    words: &[&str],
) -> Result<Vec<u8>, AllocError> {
    match words {
        ["library"] => library_text(rt, alloc, accepted),
        ["known"] => known_text(alloc, accepted),
        ["opened"] => opened_text(alloc, accepted),
        ["seats", list] => seats_text(alloc, accepted, &numbers_of(alloc, list)?),
        ["stopped"] => stopped_text(alloc, accepted),
        ["halted"] => halted_text(alloc, accepted),
        ["turns", list] => turns_text(alloc, accepted, &numbers_of(alloc, list)?),
        ["drawn"] => drawn_text(alloc, accepted),
        _ => Vec::from_slice(alloc, NO_QUESTION),
    }
}

/// Answers a question about an accepted plan.
fn answer_on(
    rt: &(impl Threads + Wait + Sync),
    alloc: Global,
    accepted: Accepted,
    words: &[&str],
) -> Result<Vec<u8>, AllocError> {
    match words {
        ["run", gate @ ..] => answer_on_run(rt, alloc, accepted, Told::Stop, gate),
        ["ends", gate @ ..] => answer_on_run(rt, alloc, accepted, Told::Ends, gate),
        _ => {
            let accepted = ManuallyDrop::new(accepted);
            answer_on_plan(rt, alloc, &*accepted, words)
        }
    }
}

/// Answers a question about the farm of a case, or with the message of its refusal.
fn answer_once(
    rt: &(impl Threads + Wait + Sync),
    alloc: Global,
    input: &[u8],
    words: &[&str],
) -> Result<Vec<u8>, AllocError> {
    let texts = texts_of(input);
    match check(
        rt,
        alloc,
        texts.packages,
        texts.sources,
        texts.farm,
        texts.plan,
    ) {
        Ok(accepted) => answer_on(rt, alloc, accepted, words),
        Err(refusal) => message_text(alloc, refusal),
    }
}

fn message_text(alloc: Global, refusal: Refusal) -> Result<Vec<u8>, AllocError> {
    Ok(format!(in alloc; "{refusal}\n")?.into_bytes())
}

/// The first line of a text.
fn first_line(text: &[u8]) -> &[u8] {
    text.split(|byte| *byte == b'\n').next().unwrap_or(text)
}

/// Answers a question about the farm of a case so often, up to the first answer whose first line is
/// none of these, which is given then.
fn answer_often(
    rt: &(impl Threads + Wait + Sync),
    alloc: Global,
    input: &[u8],
    times: u64,
    gate: &str,
    ends: &[&str],
) -> Result<Vec<u8>, AllocError> {
    for _ in 0..times {
        let answer = answer_once(rt, alloc, input, &["run", gate])?;
        let end = first_line(&answer).strip_prefix(b"ended ").unwrap_or(b"?");
        if !ends.iter().any(|wanted| wanted.as_bytes() == end) {
            return Ok(answer);
        }
    }
    Ok(format!(in alloc; "{times} runs\n")?.into_bytes())
}

/// The answers to the questions of cases.
#[derive(Drop)]
pub struct RunAnswers;

impl<R: Threads + Wait + Sync> Answers<R> for RunAnswers {
    fn answer_to(&self, rt: &R, alloc: Global, case: &Case) -> Result<Vec<u8>, AllocError> {
        let words = words_of(alloc, case.question)?;
        match words.as_slice() {
            ["cause", ends @ ..] => cause_text(alloc, ends),
            ["often", times, gate, ends @ ..] => {
                let times = read_number(times.as_bytes()).unwrap_or(0);
                answer_often(rt, alloc, &case.input, times, gate, ends)
            }
            words => answer_once(rt, alloc, &case.input, words),
        }
    }
}
