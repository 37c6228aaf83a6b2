//! The numbers that a choice takes, and whether an answer is one.

ghost use Rattle.std.specs.Prelude.{◌≡◌, ◌&&◌, [], true, IfOk};
ghost use Rattle.stage_answers.specs.Answers.{HaveNumbers, IsAnswer};

use crate::goal::{Goal, are_met, meets};
use stage_builds::{Bases, Kind, Way};
use stage_choice::{StagedBuild, leads_to};
use std::alloc::{AllocError, Global};

/// The weights of builds by kind: one build more weighs more than a light one in place of a whole
/// one, and one that is staged more than all others.
const WHOLE: u64 = 1_000;

const LIGHT: u64 = 1_001;

const STAGED: u64 = 10_001_000;

fn weight_of(kind: Kind) -> u64 {
    match kind {
        Kind::Whole => WHOLE,
        Kind::Light => LIGHT,
        Kind::Staged => STAGED,
    }
}

/// Puts the marks of the goals that a build meets behind what it gives: the mark of a goal is its
/// place behind a number.
fn push_marks(
    gives: &mut Vec<u32>,
    bases: Bases,
    goals: &[Goal],
    way: &Way,
    first: u32,
) -> Result<(), AllocError> {
    let mut mark = first;
    for goal in goals {
        if meets(bases, goal, way) {
            gives.push(mark)?;
        }
        mark = mark.saturating_add(1);
    }
    Ok(())
}

/// A build of a choice: it gives marks too.
fn marked_build(
    alloc: Global,
    bases: Bases,
    goals: &[Goal],
    way: &Way,
    first: u32,
) -> Result<StagedBuild, AllocError> {
    let mut gives = Vec::from_slice(alloc, &way.outputs)?;
    push_marks(&mut gives, bases, goals, way, first)?;
    Ok(StagedBuild {
        source: way.source,
        needs: Vec::from_slice(alloc, &way.needs)?,
        gives,
        weight: weight_of(way.kind),
        is_dear: way.kind == Kind::Staged && way.own.is_none(),
    })
}

/// The end of a choice, which needs these things.
fn end_of(alloc: Global, needs: Vec<u32>) -> StagedBuild
    ensures needs { result.needs.items ≡ needs.items }
    ensures gives { result.gives.items ≡ [] }
{
    StagedBuild {
        source: u32::MAX,
        needs,
        gives: Vec::new(alloc),
        weight: 0,
        is_dear: false,
    }
}

fn marks_of(alloc: Global, goals: &[Goal], first: u32) -> Result<Vec<u32>, AllocError> {
    let mut marks = Vec::new(alloc);
    let mut mark = first;
    for _ in 0..goals.len() {
        marks.push(mark)?;
        mark = mark.saturating_add(1);
    }
    Ok(marks)
}

/// The builds of a choice, and behind them its end, which needs the marks of all goals. No thing has
/// the first mark's number, nor a higher one.
pub fn task_of(
    alloc: Global,
    bases: Bases,
    goals: &[Goal],
    ways: &[Way],
    places: &[usize],
    first: u32,
) -> Result<Vec<StagedBuild>, AllocError> {
    let mut builds = Vec::new(alloc);
    for place in places {
        if let Some(way) = ways.get(*place) {
            builds.push(marked_build(alloc, bases, goals, way, first)?)?;
        }
    }
    builds.push(end_of(alloc, marks_of(alloc, goals, first)?))?;
    Ok(builds)
}

/// A build with what it needs and gives alone.
fn plain_build(alloc: Global, way: &Way) -> Result<StagedBuild, AllocError>
    ensures needs { IfOk result (λ build. build.needs.items ≡ way.now.needs.items) }
    ensures gives { IfOk result (λ build. build.gives.items ≡ way.now.outputs.items) }
{
    Ok(StagedBuild {
        source: way.source,
        needs: Vec::from_slice(alloc, &way.needs)?,
        gives: Vec::from_slice(alloc, &way.outputs)?,
        weight: 0,
        is_dear: false,
    })
}

fn no_build(alloc: Global) -> StagedBuild
    ensures needs { result.needs.items ≡ [] }
    ensures gives { result.gives.items ≡ [] }
{
    end_of(alloc, Vec::new(alloc))
}

/// Builds with what these need and give alone, and an end behind them.
fn plain_builds(alloc: Global, ways: &[Way]) -> Result<Vec<StagedBuild>, AllocError>
    ensures { IfOk result (λ builds. HaveNumbers ways.now builds.items) }
{
    let mut builds = Vec::new(alloc);
    for way in ways {
        builds.push(plain_build(alloc, way)?)?;
    }
    builds.push(no_build(alloc))?;
    Ok(builds)
}

fn both(one: bool, other: bool) -> bool
    ensures { result ≡ (one && other) }
{
    one && other
}

/// Tells whether builds at these places are an answer: each needs only what builds ahead of it give,
/// and each goal has its build.
pub(crate) fn is_answer(
    alloc: Global,
    bases: Bases,
    ways: &[Way],
    goals: &[Goal],
    order: &[usize],
) -> Result<bool, AllocError>
    ensures { IfOk result (λ said. said ≡ true
        → IsAnswer bases.entry ways.now goals.now order.now) }
{
    let builds = plain_builds(alloc, ways)?;
    let in_order = leads_to(alloc, &builds, order, ways.len())?;
    let met = are_met(bases, ways, order, goals);
    Ok(both(in_order, met))
}
