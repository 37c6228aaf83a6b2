//! What an answer must have.

ghost use Rattle.std.specs.Prelude.{◌≡◌};
ghost use Rattle.std.specs.List.{list_all};
ghost use Rattle.stage_answers.specs.Answers.{are_met, base_of, gives, is_final_of, is_met, is_own, meets, meets_at};

use deb_profile::ProfileSet;
use import_closure::{Shelf, SourceShelf};
use stage_builds::{Bases, Scope, Way, Ways, are_final};
use std::alloc::{AllocError, Global};

/// A build of a source, by number, that is whole or light and gives some things; or the build of the
/// recipe of a number that the wish has itself.
#[derive(Drop)]
pub struct Goal {
    pub source: u32,
    pub things: Vec<u32>,
    pub own: Option<u32>,
}

fn gives(way: &Way, thing: u32) -> bool
    ensures { result ≡ gives way.now thing }
{
    way.outputs.iter().any(|other| *other == thing)
}

fn gives_all(way: &Way, things: &[u32]) -> bool
    ensures { result ≡ list_all (gives way.now) things.now }
{
    things.iter().all(|thing| gives(way, *thing))
}

/// Tells whether a build is that of the recipe of a number that the wish has itself.
fn is_own(way: &Way, number: u32) -> bool
    ensures { result ≡ is_own way.now number }
{
    match &way.own {
        Some(own) => own.number == number,
        None => false,
    }
}

/// The profiles that a build has in any case.
fn base_of<'a>(bases: Bases<'a>, way: &Way) -> &'a ProfileSet
    ensures { result.now ≡ base_of bases.entry way.now }
{
    if way.own.is_some() {
        bases.own
    } else {
        bases.chosen
    }
}

fn is_final_of(bases: Bases, goal: &Goal, way: &Way) -> bool
    ensures { result ≡ is_final_of bases.entry goal.now way.now }
{
    way.source == goal.source
        && are_final(base_of(bases, way), &way.profiles)
        && gives_all(way, &goal.things)
}

/// Tells whether a build is what a goal asks for, where builds have these profiles in any case.
pub fn meets(bases: Bases, goal: &Goal, way: &Way) -> bool
    ensures { result ≡ meets bases.entry goal.now way.now }
{
    match goal.own {
        Some(number) => is_own(way, number),
        None => is_final_of(bases, goal, way),
    }
}

fn meets_at(bases: Bases, goal: &Goal, ways: &[Way], place: usize) -> bool
    ensures { result ≡ meets_at bases.entry goal.now ways.now place }
{
    match ways.get(place) {
        Some(way) => meets(bases, goal, way),
        None => false,
    }
}

fn is_met(bases: Bases, ways: &[Way], order: &[usize], goal: &Goal) -> bool
    ensures { result ≡ is_met bases.entry ways.now order.now goal.now }
{
    order
        .iter()
        .any(|place| meets_at(bases, goal, ways, *place))
}

/// Tells whether for each goal one of the builds at these places is what it asks for.
pub fn are_met(bases: Bases, ways: &[Way], order: &[usize], goals: &[Goal]) -> bool
    ensures { result ≡ are_met bases.entry ways.now order.now goals.now }
{
    goals.iter().all(|goal| is_met(bases, ways, order, goal))
}

/// The place of the goal of a source.
fn place_of(goals: &[Goal], source: u32) -> Option<usize> {
    for (place, goal) in goals.iter().enumerate() {
        if goal.source == source {
            return Some(place);
        }
    }
    None
}

/// Adds a thing to what is asked of a source.
fn add_thing(
    alloc: Global,
    goals: &mut Vec<Goal>,
    source: u32,
    thing: u32,
) -> Result<(), AllocError> {
    if place_of(goals, source).is_none() {
        goals.push(Goal {
            source,
            things: Vec::new(alloc),
            own: None,
        })?;
    }
    match place_of(goals, source) {
        Some(place) => push_thing(goals, place, thing),
        None => Ok(()),
    }
}

fn push_thing(goals: &mut [Goal], place: usize, thing: u32) -> Result<(), AllocError> {
    if let Some(goal) = goals.get_mut(place) {
        goal.things.push(thing)?;
    }
    Ok(())
}

/// The goals of the targets: of each source of a member a build that gives all its members. `lacking`
/// gets the blocks of members whose source the indexes lack.
pub(crate) fn goals_of(
    scope: Scope,
    shelf: &mut Shelf,
    sources: &mut SourceShelf,
    ways: &mut Ways,
    members: &[u32],
    lacking: &mut Vec<u32>,
) -> Result<Vec<Goal>, AllocError> {
    let mut goals = Vec::new(scope.alloc);
    for block in members {
        let source = ways.source_of(scope, shelf, sources, *block)?;
        if ways.has_source(source) {
            let thing = ways.stock.things.number(scope.alloc, shelf, *block)?;
            add_thing(scope.alloc, &mut goals, source, thing)?;
        } else {
            lacking.push(*block)?;
        }
    }
    Ok(goals)
}

/// Puts a goal behind others for each build of a recipe that the wish has itself.
pub(crate) fn push_own_goals(
    alloc: Global,
    ways: &[Way],
    goals: &mut Vec<Goal>,
) -> Result<(), AllocError> {
    for way in ways {
        if let Some(own) = &way.own {
            goals.push(Goal {
                source: way.source,
                things: Vec::new(alloc),
                own: Some(own.number),
            })?;
        }
    }
    Ok(())
}

/// The first of some goals, as many as are wanted.
pub(crate) fn first_goals(
    alloc: Global,
    goals: &[Goal],
    count: usize,
) -> Result<Vec<Goal>, AllocError> {
    let mut first = Vec::new(alloc);
    for goal in goals.get(..count).unwrap_or(&[]) {
        first.push(Goal {
            source: goal.source,
            things: Vec::from_slice(alloc, &goal.things)?,
            own: goal.own,
        })?;
    }
    Ok(first)
}

/// The things that goals ask for.
pub(crate) fn things_of(alloc: Global, goals: &[Goal]) -> Result<Vec<u32>, AllocError> {
    let mut things = Vec::new(alloc);
    for goal in goals {
        things.extend_from_slice(&goal.things)?;
    }
    Ok(things)
}
