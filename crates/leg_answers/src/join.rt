//! A leg that is to go on where another has stopped.

ghost use Rattle.std.specs.Prelude.{◌≡◌, IfOk};
ghost use Rattle.leg_answers.specs.Joins.{IsJoined, IsJoinedFrom, IsJoinedTo};
ghost use Rattle.leg_runs.specs.Reads.{IsPlanned, IsRead, run_of, text_of};
ghost use Rattle.plan_reader.specs.TextsView.{texts_view};

use crate::facts::LegFacts;
use crate::why::{Why, why_not};
use leg_runs::{Leg, LegFault, LegTexts, goes_on_from, planned_of, read_leg};
use plan_reader::Planned;
use std::alloc::{AllocError, Global};

/// Two runs of which one goes on where the other has stopped: the name of that one, and the run that
/// its journal says goes on from there, if it does; and the name of the other.
#[derive(Drop)]
pub struct Joined {
    pub before: Vec<u8>,
    pub next_run: Option<Vec<u8>>,
    pub name: Vec<u8>,
}

/// Why a leg does not go on where another has stopped: one of them is not read, the first one first;
/// or the farm of the second one is of another run.
#[derive(Drop)]
pub enum JoinFault {
    Leg(LegFault),
    Farm(Why),
}

impl From<AllocError> for JoinFault {
    fn from(_error: AllocError) -> JoinFault {
        JoinFault::Leg(LegFault::Memory)
    }
}

/// A leg whose farm and plan are read.
#[derive(Clone, Copy)]
struct Read<'a> {
    of: LegTexts<'a>,
    planned: &'a Planned,
}

fn next_of(alloc: Global, leg: &Leg<'_>) -> Result<Option<Vec<u8>>, AllocError> {
    match leg.next_run {
        Some(run) => Ok(Some(Vec::from_slice(alloc, run)?)),
        None => Ok(None),
    }
}

fn joined_by(alloc: Global, before: &Leg<'_>, leg: &Leg<'_>) -> Result<Joined, AllocError> {
    Ok(Joined {
        before: Vec::from_slice(alloc, &before.said.name)?,
        next_run: next_of(alloc, before)?,
        name: Vec::from_slice(alloc, &leg.said.name)?,
    })
}

fn why_of(alloc: Global, before: &Leg<'_>, leg: &Leg<'_>) -> Result<Why, AllocError> {
    let start = LegFacts::of(alloc, before)?;
    let end = LegFacts::of(alloc, leg)?;
    why_not(alloc, before, leg, (&start, &end))
}

fn join_legs(alloc: Global, before: &Leg<'_>, leg: &Leg<'_>) -> Result<Joined, JoinFault>
    ensures { IfOk result (IsJoined (run_of before.now) (run_of leg.now)) }
{
    if !goes_on_from(alloc, before, leg)? {
        return Err(JoinFault::Farm(why_of(alloc, before, leg)?));
    }
    Ok(joined_by(alloc, before, leg)?)
}

fn join_to(alloc: Global, before: &Leg<'_>, read: Read<'_>) -> Result<Joined, JoinFault>
    requires { IsPlanned (texts_view read.of.texts) read.planned.now }
    ensures { IfOk result (IsJoinedTo (run_of before.now) (text_of read.entry.of)) }
{
    match read_leg(alloc, read.of, read.planned) {
        Ok(leg) => join_legs(alloc, before, &leg),
        Err(fault) => Err(JoinFault::Leg(fault)),
    }
}

fn join_from(alloc: Global, before: &Leg<'_>, of: LegTexts<'_>) -> Result<Joined, JoinFault>
    ensures { IfOk result (IsJoinedTo (run_of before.now) (text_of of.entry)) }
{
    match planned_of(alloc, of.texts) {
        Ok(planned) => join_to(
            alloc,
            before,
            Read {
                of,
                planned: &planned,
            },
        ),
        Err(fault) => Err(JoinFault::Leg(fault)),
    }
}

fn join_read(alloc: Global, before: Read<'_>, of: LegTexts<'_>) -> Result<Joined, JoinFault>
    requires { IsPlanned (texts_view before.of.texts) before.planned.now }
    ensures { IfOk result (IsJoinedFrom (text_of before.entry.of) (text_of of.entry)) }
{
    match read_leg(alloc, before.of, before.planned) {
        Ok(leg) => join_from(alloc, &leg, of),
        Err(fault) => Err(JoinFault::Leg(fault)),
    }
}

/// Looks whether a leg goes on where another has stopped, by the texts of both.
///
/// # Errors
///
/// [`JoinFault`].
pub fn join_texts(
    alloc: Global,
    before: LegTexts<'_>,
    of: LegTexts<'_>,
) -> Result<Joined, JoinFault>
    ensures { IfOk result (IsJoinedFrom (text_of before.entry) (text_of of.entry)) }
{
    match planned_of(alloc, before.texts) {
        Ok(planned) => join_read(
            alloc,
            Read {
                of: before,
                planned: &planned,
            },
            of,
        ),
        Err(fault) => Err(JoinFault::Leg(fault)),
    }
}
