//! The choice of builds.

ghost use Rattle.std.specs.Prelude.{IfOk};
ghost use Rattle.stage_answers.specs.Answers.{IsChosen};

use crate::candidates::choosable;
use crate::goal::Goal;
use crate::task::{is_answer, task_of};
use import_wish::Finish;
use stage_builds::{Bases, Scope, Way, Ways};
use stage_choice::{Choice, choose};
use std::alloc::{AllocError, Global};

/// Builds that are chosen: their places among all, in an order in which each can be made, and how many
/// rounds it takes to make them, if in each all is made that can be.
#[derive(Drop)]
pub struct Chosen {
    pub order: Vec<usize>,
    pub depth: usize,
}

/// How a choice ends: with builds; without, since all builds that may be chosen do not lead to the
/// goals; or with builds that are no answer, which is a fault of this program.
#[derive(Drop)]
pub enum Choosing {
    Builds(Chosen),
    NoWay,
    Wrong,
}

/// The places among all builds of those at some places among the choosable ones.
fn places_at(alloc: Global, places: &[usize], order: &[usize]) -> Result<Vec<usize>, AllocError> {
    let mut found = Vec::new(alloc);
    for at in order {
        if let Some(place) = places.get(*at) {
            found.push(*place)?;
        }
    }
    Ok(found)
}

/// Chooses of builds at these places.
fn choose_of(
    alloc: Global,
    bases: Bases,
    ways: &Ways,
    goals: &[Goal],
    places: &[usize],
) -> Result<Option<Choice>, AllocError> {
    let count = ways.stock.things.count();
    let first = u32::try_from(count).unwrap_or(u32::MAX);
    let builds = task_of(alloc, bases, goals, &ways.ways, places, first)?;
    let end = builds.len().saturating_sub(1);
    choose(alloc, &builds, end)
}

/// The choice as it is, if it is an answer.
fn judged(
    alloc: Global,
    bases: Bases,
    ways: &[Way],
    goals: &[Goal],
    order: Vec<usize>,
    depth: usize,
) -> Result<Choosing, AllocError>
    ensures { IfOk result (IsChosen bases.entry ways.now goals.now) }
{
    if is_answer(alloc, bases, ways, goals, &order)? {
        return Ok(Choosing::Builds(Chosen { order, depth }));
    }
    Ok(Choosing::Wrong)
}

/// Chooses builds for these goals: few staged ones, then few at all, then rather whole ones than light
/// ones.
fn choose_for(
    scope: Scope,
    ways: &Ways,
    goals: &[Goal],
    forbidden: &[usize],
) -> Result<Choosing, AllocError>
    ensures { IfOk result
        (IsChosen scope.entry.asked.bases ways.now.ways.items goals.now) }
{
    let alloc = scope.alloc;
    let bases = scope.asked.bases;
    let places = choosable(alloc, ways, scope.asked.own, forbidden)?;
    match choose_of(alloc, bases, ways, goals, &places)? {
        Some(choice) => {
            let order = places_at(alloc, &places, &choice.order)?;
            judged(alloc, bases, &ways.ways, goals, order, choice.rounds)
        }
        None => Ok(Choosing::NoWay),
    }
}

/// Tells whether one of the builds at some places is a final one of a source.
fn has_final(ways: &[Way], order: &[usize], source: u32) -> bool {
    order.iter().any(|place| is_final_at(ways, *place, source))
}

fn is_final_at(ways: &[Way], place: usize, source: u32) -> bool {
    match ways.get(place) {
        Some(way) => way.source == source && way.kind.is_final(),
        None => false,
    }
}

/// Tells whether one of some goals is a final build of a source.
fn has_goal(goals: &[Goal], source: u32) -> bool {
    goals
        .iter()
        .any(|goal| goal.source == source && goal.own.is_none())
}

/// The sources of builds that are built staged and not whole or light, and of which no goal is.
fn unfinished(
    alloc: Global,
    ways: &[Way],
    goals: &[Goal],
    order: &[usize],
) -> Result<Vec<u32>, AllocError> {
    let mut sources = Vec::new(alloc);
    for place in order {
        if let Some(way) = ways.get(*place) {
            let source = way.source;
            if !has_final(ways, order, source) && !has_goal(goals, source) {
                sources.push(source)?;
            }
        }
    }
    Ok(sources)
}

/// The sources that are still to be finished.
fn still_wanted(
    alloc: Global,
    ways: &[Way],
    goals: &[Goal],
    choosing: &Choosing,
    finish: Finish,
) -> Result<Vec<u32>, AllocError> {
    match (finish, choosing) {
        (Finish::All, Choosing::Builds(chosen)) => unfinished(alloc, ways, goals, &chosen.order),
        _ => Ok(Vec::new(alloc)),
    }
}

/// Puts a goal behind others for each of some sources, once.
fn push_goals(alloc: Global, goals: &mut Vec<Goal>, sources: &[u32]) -> Result<(), AllocError> {
    for source in sources {
        if !has_goal(goals, *source) {
            goals.push(Goal {
                source: *source,
                things: Vec::new(alloc),
                own: None,
            })?;
        }
    }
    Ok(())
}

/// Goals, and how the choice of builds for them ended.
#[derive(Drop)]
pub struct Answered {
    pub goals: Vec<Goal>,
    pub choosing: Choosing,
}

/// Chooses builds for these goals, without those that are forbidden, and, where all are to be finished, again until each source that is
/// built staged is also built whole or light.
pub(crate) fn choose_builds(
    scope: Scope,
    ways: &Ways,
    goals: Vec<Goal>,
    forbidden: &[usize],
) -> Result<Answered, AllocError>
    ensures { IfOk result
        (λ answered. IsChosen scope.entry.asked.bases ways.now.ways.items
        answered.goals.items answered.choosing) }
{
    let alloc = scope.alloc;
    let finish = scope.asked.finish;
    let mut goals = goals;
    // each round but the last has a goal more, of another source
    for _ in 0..=ways.sources.len() {
        let choosing = choose_for(scope, ways, &goals, forbidden)?;
        let more = still_wanted(alloc, &ways.ways, &goals, &choosing, finish)?;
        if more.is_empty() {
            return Ok(Answered { goals, choosing });
        }
        push_goals(alloc, &mut goals, &more)?;
    }
    let choosing = Choosing::Wrong;
    Ok(Answered { goals, choosing })
}
