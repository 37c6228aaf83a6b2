//! What can be had of all builds, where they do not lead to the goals.

use crate::needs::{Need, all_needs};
use import_closure::{Shelf, SourceShelf};
use stage_answers::{Goal, choosable, meets, own_name, task_of};
use stage_builds::{Below, Scope, Way, Ways};
use stage_choice::{Made, StagedBuild, made_of};
use std::alloc::{AllocError, Global};

/// What was to be chosen of: all builds that could be, the goals, and the builds that are forbidden.
#[derive(Clone, Copy)]
pub struct Asked<'a> {
    pub scope: Scope<'a>,
    pub ways: &'a Ways,
    pub goals: &'a [Goal],
    pub forbidden: &'a [usize],
}

/// What can be had: the builds as a choice sees them, its end behind them; those that can be made; by
/// build its needs; by thing whether a build gives it; and the number of the first goal, behind those of
/// all things.
#[derive(Drop)]
pub struct Had {
    pub builds: Vec<StagedBuild>,
    pub made: Made,
    pub needs: Vec<Vec<Need>>,
    pub is_giveable: Vec<bool>,
    pub first: u32,
}

/// Marks what a build gives of its own source.
fn mark_outputs(is_giveable: &mut [bool], sources: &[Option<u32>], way: &Way) {
    for thing in &way.outputs {
        if sources.get(*thing as usize) == Some(&Some(way.source)) {
            if let Some(mark) = is_giveable.get_mut(*thing as usize) {
                *mark = true;
            }
        }
    }
}

/// By thing whether a build gives it that is not forbidden.
fn giveable(asked: Asked, shelf: &Shelf) -> Result<Vec<bool>, AllocError> {
    let sources = asked.ways.thing_sources(asked.scope.alloc, shelf)?;
    let mut is_giveable = Vec::from_elem(asked.scope.alloc, false, sources.len())?;
    for (place, way) in asked.ways.ways.iter().enumerate() {
        if !asked.forbidden.contains(&place) {
            mark_outputs(&mut is_giveable, &sources, way);
        }
    }
    Ok(is_giveable)
}

/// Looks what can be had.
pub fn what_is_had(asked: Asked, shelf: &Shelf, sources: &SourceShelf) -> Result<Had, AllocError> {
    let scope = asked.scope;
    let first = u32::try_from(asked.ways.stock.things.count()).unwrap_or(u32::MAX);
    let places = choosable(scope.alloc, asked.ways, scope.asked.own, asked.forbidden)?;
    let ways = &asked.ways.ways;
    let builds = task_of(
        scope.alloc,
        scope.asked.bases,
        asked.goals,
        ways,
        &places,
        first,
    )?;
    Ok(Had {
        made: made_of(scope.alloc, &builds)?,
        builds,
        needs: all_needs(scope, sources, asked.ways)?,
        is_giveable: giveable(asked, shelf)?,
        first,
    })
}

impl Had {
    /// The needs of the build of a place.
    pub fn needs_of(&self, place: usize) -> &[Need] {
        match self.needs.get(place) {
            Some(needs) => needs,
            None => &[],
        }
    }

    /// Tells whether a build gives a thing.
    pub fn is_giveable(&self, thing: u32) -> bool {
        self.is_giveable.get(thing as usize) == Some(&true)
    }

    /// The number of a goal, if it is one's.
    pub fn goal_of<'a>(&self, asked: Asked<'a>, number: u32) -> Option<&'a Goal> {
        if number < self.first {
            return None;
        }
        asked.goals.get((number - self.first) as usize)
    }
}

/// What is to be given for a need to be met.
pub fn below<'a>(asked: Asked<'a>, need: &Need) -> Option<&'a Below> {
    match need.met_by {
        Some(block) => asked.ways.stock.below(block),
        None => None,
    }
}

/// Tells whether nothing meets a need, or a need of what meets it.
pub fn is_unmet(asked: Asked, need: &Need) -> bool {
    match below(asked, need) {
        Some(below) => below.unmet.is_some(),
        None => need.met_by.is_none(),
    }
}

/// The things that are to be given for a need, in the order of numbers.
pub fn things_of<'a>(asked: Asked<'a>, need: &Need) -> &'a [u32] {
    match below(asked, need) {
        Some(below) => &below.things,
        None => &[],
    }
}

impl Had {
    /// The things of a need that cannot be had.
    pub fn lacking(
        &self,
        alloc: Global,
        asked: Asked,
        need: &Need,
    ) -> Result<Vec<u32>, AllocError> {
        let mut lacking = Vec::new(alloc);
        for thing in things_of(asked, need) {
            if !self.made.gives(*thing) {
                lacking.push(*thing)?;
            }
        }
        Ok(lacking)
    }

    /// Tells whether a need cannot be met by what can be had.
    pub fn is_lacking(&self, asked: Asked, need: &Need) -> bool {
        is_unmet(asked, need)
            || things_of(asked, need)
                .iter()
                .any(|thing| !self.made.gives(*thing))
    }
}

fn gives(way: &Way, thing: u32) -> bool {
    way.outputs.iter().any(|other| *other == thing)
}

/// Puts the builds of a thing from one place up to another behind others, without those that are
/// forbidden.
fn push_givers(
    asked: Asked,
    thing: u32,
    source: u32,
    first: usize,
    end: usize,
    places: &mut Vec<usize>,
) -> Result<(), AllocError> {
    for place in first..end {
        if let Some(way) = asked.ways.ways.get(place) {
            if way.source == source && gives(way, thing) && !asked.forbidden.contains(&place) {
                places.push(place)?;
            }
        }
    }
    Ok(())
}

/// The places of the builds that give a thing: the wish's own first.
fn givers(asked: Asked, shelf: &Shelf, thing: u32) -> Result<Vec<usize>, AllocError> {
    let mut places = Vec::new(asked.scope.alloc);
    let Some(number) = asked.ways.source_of_thing(shelf, thing) else {
        return Ok(places);
    };
    push_givers(
        asked,
        thing,
        number,
        0,
        asked.scope.asked.own.len(),
        &mut places,
    )?;
    if let Some(source) = asked.ways.sources.get(number as usize) {
        let end = source.first.saturating_add(source.count);
        push_givers(asked, thing, number, source.first, end, &mut places)?;
    }
    Ok(places)
}

/// The places of the builds that a goal asks for, without those that are forbidden.
fn fitting(asked: Asked, goal: &Goal) -> Result<Vec<usize>, AllocError> {
    let mut places = Vec::new(asked.scope.alloc);
    for (place, way) in asked.ways.ways.iter().enumerate() {
        if meets(asked.scope.asked.bases, goal, way) && !asked.forbidden.contains(&place) {
            places.push(place)?;
        }
    }
    Ok(places)
}

impl Had {
    /// The places of the builds for what is asked for: a thing, or a goal.
    pub fn ways_for(
        &self,
        asked: Asked,
        shelf: &Shelf,
        number: u32,
    ) -> Result<Vec<usize>, AllocError> {
        match self.goal_of(asked, number) {
            Some(goal) => fitting(asked, goal),
            None => givers(asked, shelf, number),
        }
    }
}

/// The name of the source of a build.
pub fn source_name<'a>(asked: Asked<'a>, number: u32) -> &'a [u8] {
    match asked.ways.sources.get(number as usize) {
        Some(source) => &source.name,
        None => b"",
    }
}

/// The name of the recipe that the wish has itself for a build, if it has one.
pub fn recipe_name<'a>(asked: Asked<'a>, way: &Way) -> Option<&'a [u8]> {
    match &way.own {
        Some(own) => Some(own_name(asked.scope.asked.own, own.number)),
        None => None,
    }
}
