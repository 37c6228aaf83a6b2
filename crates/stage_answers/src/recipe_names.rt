//! The recipes of the explicit wish: which builds they are, and their names.

use crate::answer::Answer;
use crate::candidates::own_name;
use crate::choosing::Choosing;
use crate::goal::{Goal, meets};
use import_closure::Shelf;
use itoa::Buffer;
use stage_builds::{Bases, Kind, Scope, Way, Ways};
use std::alloc::{AllocError, Global};
use std::collections::BTreeSet;

/// A recipe: its name, the place of its build among all, and the names of its outputs, if it does not
/// give all that its build does.
#[derive(Drop)]
pub struct ChosenRecipe {
    pub name: Vec<u8>,
    pub place: usize,
    pub outputs: Option<Vec<Vec<u8>>>,
}

/// Puts those of some builds that are staged, or else those that are not, behind others.
fn push_kind(
    ways: &[Way],
    order: &[usize],
    are_staged: bool,
    listed: &mut Vec<usize>,
) -> Result<(), AllocError> {
    for place in order {
        match ways.get(*place) {
            Some(way) if (way.kind == Kind::Staged) == are_staged => listed.push(*place)?,
            _ => {}
        }
    }
    Ok(())
}

/// The builds of an answer as the wish has them: the staged ones first, so that they get the first
/// versions.
pub fn listed_builds(alloc: Global, answer: &Answer) -> Result<Vec<usize>, AllocError> {
    let mut listed = Vec::new(alloc);
    if let Choosing::Builds(chosen) = &answer.answered.choosing {
        push_kind(&answer.ways.ways, &chosen.order, true, &mut listed)?;
        push_kind(&answer.ways.ways, &chosen.order, false, &mut listed)?;
    }
    Ok(listed)
}

fn is_whole_at(ways: &[Way], place: usize, source: u32) -> bool {
    match ways.get(place) {
        Some(way) => way.source == source && way.kind == Kind::Whole,
        None => false,
    }
}

/// What the name of a build's recipe ends in: a light build has an end of its own beside a whole one.
fn end_of(ways: &[Way], listed: &[usize], way: &Way) -> &'static [u8] {
    match way.kind {
        Kind::Whole => b"",
        Kind::Light => {
            if listed
                .iter()
                .any(|place| is_whole_at(ways, *place, way.source))
            {
                b"-light"
            } else {
                b""
            }
        }
        Kind::Staged => b"-stage",
    }
}

/// A name that is not taken: this one, or it with the next number from 2 on.
fn free_name(alloc: Global, taken: &BTreeSet<Vec<u8>>, stem: &[u8]) -> Result<Vec<u8>, AllocError> {
    if !taken.contains(stem) {
        return Vec::from_slice(alloc, stem);
    }
    for number in 2..u64::MAX {
        let mut buffer = Buffer::new();
        let mut name = Vec::from_slice(alloc, stem)?;
        name.extend_from_slice(buffer.format(number).as_bytes())?;
        if !taken.contains(&name) {
            return Ok(name);
        }
    }
    Err(AllocError)
}

/// The name of a build's recipe, which is taken then.
fn name_of(
    alloc: Global,
    ways: &Ways,
    listed: &[usize],
    way: &Way,
    taken: &mut BTreeSet<Vec<u8>>,
) -> Result<Vec<u8>, AllocError> {
    let mut stem = Vec::new(alloc);
    if let Some(source) = ways.sources.get(way.source as usize) {
        stem.extend_from_slice(&source.name)?;
    }
    stem.extend_from_slice(end_of(&ways.ways, listed, way))?;
    let name = free_name(alloc, taken, &stem)?;
    taken.insert(Vec::from_slice(alloc, &name)?)?;
    Ok(name)
}

/// Tells whether a target asks for a build.
fn is_asked(bases: Bases, goals: &[Goal], way: &Way) -> bool {
    goals.iter().any(|goal| meets(bases, goal, way))
}

/// The names of packages of these things that are not there at the beginning.
fn lacking_names(
    scope: Scope,
    shelf: &mut Shelf,
    ways: &mut Ways,
    things: &[u32],
) -> Result<Vec<Vec<u8>>, AllocError> {
    let mut names = Vec::new(scope.alloc);
    for thing in things {
        if let Some(block) = ways.stock.things.block(*thing) {
            if !ways.stock.is_there(scope, shelf, block)? {
                push_name(scope.alloc, shelf, block, &mut names)?;
            }
        }
    }
    names.sort()?;
    Ok(names)
}

fn push_name(
    alloc: Global,
    shelf: &Shelf,
    block: u32,
    names: &mut Vec<Vec<u8>>,
) -> Result<(), AllocError> {
    if let Some(given) = shelf.given(block) {
        names.push(Vec::from_slice(alloc, &given.name)?)?;
    }
    Ok(())
}

/// The names of the outputs of a build that no target asks for, where some of what it gives is there
/// already and some is not: it gives what is not there.
fn outputs_of(
    scope: Scope,
    shelf: &mut Shelf,
    ways: &mut Ways,
    things: &[u32],
) -> Result<Option<Vec<Vec<u8>>>, AllocError> {
    let names = lacking_names(scope, shelf, ways, things)?;
    Ok(if names.is_empty() || names.len() == things.len() {
        None
    } else {
        Some(names)
    })
}

/// Tells whether a target asks for the build of a place.
fn is_asked_at(bases: Bases, answer: &Answer, place: usize) -> bool {
    match answer.ways.ways.get(place) {
        Some(way) => {
            let goals = answer.answered.goals.get(..answer.wanted).unwrap_or(&[]);
            is_asked(bases, goals, way)
        }
        None => false,
    }
}

/// Tells whether the build of a place is one of the wish's own recipes.
fn is_own_at(answer: &Answer, place: usize) -> bool {
    match answer.ways.ways.get(place) {
        Some(way) => way.own.is_some(),
        None => false,
    }
}

/// What the build of a place gives.
fn things_at(alloc: Global, ways: &Ways, place: usize) -> Result<Vec<u32>, AllocError> {
    match ways.ways.get(place) {
        Some(way) => Vec::from_slice(alloc, &way.outputs),
        None => Ok(Vec::new(alloc)),
    }
}

/// The names of the outputs of the build of a place, where it does not give all that it could.
fn outputs_at(
    scope: Scope,
    shelf: &mut Shelf,
    answer: &mut Answer,
    place: usize,
) -> Result<Option<Vec<Vec<u8>>>, AllocError> {
    if is_own_at(answer, place) || is_asked_at(scope.asked.bases, answer, place) {
        return Ok(None);
    }
    let things = things_at(scope.alloc, &answer.ways, place)?;
    outputs_of(scope, shelf, &mut answer.ways, &things)
}

/// The name of the recipe of the build of a place, which is taken then: that of the wish's own recipe,
/// or a new one.
fn name_at(
    scope: Scope,
    ways: &Ways,
    listed: &[usize],
    place: usize,
    taken: &mut BTreeSet<Vec<u8>>,
) -> Result<Vec<u8>, AllocError> {
    let Some(way) = ways.ways.get(place) else {
        return Ok(Vec::new(scope.alloc));
    };
    match &way.own {
        Some(own) => Vec::from_slice(scope.alloc, own_name(scope.asked.own, own.number)),
        None => name_of(scope.alloc, ways, listed, way, taken),
    }
}

/// The names of the wish's own recipes.
fn own_names(scope: Scope) -> Result<BTreeSet<Vec<u8>>, AllocError> {
    let mut names = BTreeSet::new(scope.alloc);
    for own in scope.asked.own {
        names.insert(Vec::from_slice(scope.alloc, &own.recipe.name)?)?;
    }
    Ok(names)
}

/// The recipe of the build of a place.
fn recipe_of(
    scope: Scope,
    shelf: &mut Shelf,
    answer: &mut Answer,
    listed: &[usize],
    place: usize,
    taken: &mut BTreeSet<Vec<u8>>,
) -> Result<ChosenRecipe, AllocError> {
    let name = name_at(scope, &answer.ways, listed, place, taken)?;
    let outputs = outputs_at(scope, shelf, answer, place)?;
    Ok(ChosenRecipe {
        name,
        place,
        outputs,
    })
}

/// The recipes of an answer's builds, in the order of the wish.
pub fn chosen_recipes(
    scope: Scope,
    shelf: &mut Shelf,
    answer: &mut Answer,
) -> Result<Vec<ChosenRecipe>, AllocError> {
    let listed = listed_builds(scope.alloc, answer)?;
    let mut taken = own_names(scope)?;
    let mut recipes = Vec::new(scope.alloc);
    for place in &listed {
        recipes.push(recipe_of(scope, shelf, answer, &listed, *place, &mut taken)?)?;
    }
    Ok(recipes)
}
