//! Runs over gates, and what they come to.

use crate::gates::CaseGate;
use crate::lines::{push_chroot, push_history};
use crate::manners::Manner;
use farm_executor::{Bell, FarmRun, RunFault, run_farm};
use lane_runner::{HALTED, LaneStop};
use plan_verifier::Accepted;
use std::alloc::{AllocError, Global};
use std::mem::ManuallyDrop;
use std::sync::Wait;
use std::thread::Threads;

/// What is told of a run that has stopped.
#[derive(Clone, Copy, PartialEq, Eq)]
pub enum Told {
    /// The end of the lane that was to stop.
    Stop,
    /// The ends of all lanes.
    Ends,
}

/// The costs of the lanes, divided by commas, and how many publications there were, as `64,14:3`.
fn push_end(text: &mut String, run: &FarmRun) -> Result<(), AllocError> {
    let mut is_first = true;
    for spent in &run.spent {
        if !is_first {
            text.push_str(",")?;
        }
        write!(text, "{spent}")?;
        is_first = false;
    }
    write!(text, ":{}", run.history.len())
}

/// What a run came to: its end, its publications, and what each lane's chroot holds.
fn push_run(text: &mut String, run: &FarmRun) -> Result<(), AllocError> {
    text.push_str("ended ")?;
    push_end(text, run)?;
    text.push_str("\n")?;
    push_history(text, run.accepted.universe(), &run.history)?;
    for (lane, chroot) in run.chroots.iter().enumerate() {
        writeln!(text, "lane {lane}")?;
        push_chroot(text, run.accepted.universe(), chroot)?;
    }
    Ok(())
}

/// How a lane ended.
fn push_stop(text: &mut String, lane: usize, stop: LaneStop) -> Result<(), AllocError> {
    if stop.code == 0 {
        return writeln!(text, "lane {lane} ended");
    }
    writeln!(
        text,
        "lane {lane} stopped {} at {}",
        stop.code, stop.instruction
    )
}

/// The ends of all lanes, or of this one.
fn push_ends(text: &mut String, ends: &[LaneStop], only: Option<usize>) -> Result<(), AllocError> {
    for (lane, stop) in ends.iter().enumerate() {
        if only.is_none() || only == Some(lane) {
            push_stop(text, lane, *stop)?;
        }
    }
    Ok(())
}

/// Whether the lanes beside this one are at their ends or were halted, where there are others.
fn push_others(text: &mut String, ends: &[LaneStop], lane: usize) -> Result<(), AllocError> {
    let mut others = ends.iter().enumerate().filter(|end| end.0 != lane);
    if ends.len() < 2 {
        return Ok(());
    }
    let are_so = others.all(|end| end.1.code == 0 || end.1.code == HALTED);
    text.push_str(if are_so {
        "the others ended or were halted\n"
    } else {
        "another gave up\n"
    })
}

/// Why a run stopped, and what is told of it.
fn push_fault<R: Wait>(
    text: &mut String,
    fault: &RunFault,
    gate: &CaseGate<'_, R>,
    lane: u32,
    told: Told,
) -> Result<(), AllocError> {
    let RunFault::Stopped {
        code,
        lane: cause,
        ends,
        ..
    } = fault
    else {
        return Err(AllocError);
    };
    writeln!(text, "stopped {code} by lane {cause}")?;
    if told == Told::Ends {
        return push_ends(text, ends, None);
    }
    push_ends(text, ends, Some(lane as usize))?;
    gate.push_seen(text)?;
    push_others(text, ends, lane as usize)
}

/// Runs a farm over a gate of a case, and tells what comes of it.
pub fn run_text(
    rt: &(impl Threads + Wait + Sync),
    alloc: Global,
    accepted: Accepted,
    manner: Manner,
    told: Told,
) -> Result<Vec<u8>, AllocError> {
    // the program ends with its answers: what a run leaves goes with it, and not piece by piece
    let gate = ManuallyDrop::new(CaseGate::new(rt, alloc, manner, accepted.plan().lanes()));
    let ran = ManuallyDrop::new(run_farm(rt, alloc, accepted, &*gate));
    let mut text = String::new(alloc);
    match &*ran {
        Ok(run) => push_run(&mut text, run)?,
        Err(fault) => push_fault(&mut text, fault, &*gate, manner.lane(), told)?,
    }
    Ok(text.into_bytes())
}

/// Runs a farm over the program's own gate, and tells what comes of it.
///
/// # Errors
///
/// [`AllocError`] where memory is refused, or a thread cannot be started.
pub fn run_by_bell(
    rt: &(impl Threads + Wait + Sync),
    alloc: Global,
    accepted: Accepted,
) -> Result<Vec<u8>, AllocError> {
    let bell = Bell::new(rt, alloc, accepted.plan().lanes())?;
    let ran = ManuallyDrop::new(run_farm(rt, alloc, accepted, &bell));
    let mut text = String::new(alloc);
    match &*ran {
        Ok(run) => push_run(&mut text, run)?,
        Err(_) => return Err(AllocError),
    }
    Ok(text.into_bytes())
}
