//! Shortest circles of recipes, each built after the next.

use crate::through::Stuck;
use draft_search::{at, put};
use std::alloc::{AllocError, Global};

/// Where no recipe is.
const NONE: usize = usize::MAX;

/// The place of a recipe among those that are stuck.
pub(crate) fn place_of(stuck: &[Stuck], recipe: usize) -> Option<usize> {
    stuck.iter().position(|other| other.recipe == recipe)
}

/// The places that a place leads to.
#[derive(Drop)]
struct Steps {
    to: Vec<Vec<usize>>,
}

impl Steps {
    fn of(alloc: Global, stuck: &[Stuck]) -> Result<Steps, AllocError> {
        let mut to = Vec::new(alloc);
        for from in stuck {
            let mut places = Vec::new(alloc);
            for edge in &from.edges {
                if let Some(place) = place_of(stuck, edge.to) {
                    places.push(place)?;
                }
            }
            to.push(places)?;
        }
        Ok(Steps { to })
    }

    fn from(&self, place: usize) -> &[usize] {
        match self.to.get(place) {
            Some(places) => places,
            None => &[],
        }
    }
}

/// The way back from a place to the one at which a walk began, turned.
fn way(alloc: Global, back: &[usize], last: usize, most: usize) -> Result<Vec<usize>, AllocError> {
    let mut way = Vec::new(alloc);
    let mut place = last;
    for _ in 0..most {
        if place == NONE {
            break;
        }
        way.push(place)?;
        place = at(back, place, NONE);
    }
    way.reverse();
    Ok(way)
}

/// A walk from a place on: the places that it has come to, in their order; of each the one before it
/// and how far it is; and which it may go to.
#[derive(Drop)]
struct Walk {
    todo: Vec<usize>,
    back: Vec<usize>,
    far: Vec<usize>,
    is_open: Vec<bool>,
}

impl Walk {
    /// A walk that begins at a place, over those that are left.
    fn begin(alloc: Global, is_left: &[bool], start: usize) -> Result<Walk, AllocError> {
        let mut walk = Walk {
            todo: Vec::new(alloc),
            back: vec![in alloc; NONE; is_left.len()]?,
            far: vec![in alloc; 0; is_left.len()]?,
            is_open: Vec::from_slice(alloc, is_left)?,
        };
        walk.todo.push(start)?;
        put(&mut walk.is_open, start, false);
        Ok(walk)
    }

    /// Goes on from a place to another one, if it may and has not.
    fn go(&mut self, from: usize, to: usize) -> Result<(), AllocError> {
        if !at(&self.is_open, to, false) {
            return Ok(());
        }
        put(&mut self.is_open, to, false);
        put(&mut self.back, to, from);
        let far = at(&self.far, from, 0).saturating_add(1);
        put(&mut self.far, to, far);
        self.todo.push(to)?;
        Ok(())
    }
}

/// A shortest way from a place to itself over those that are left, if there is one of fewer places
/// than this.
fn shortest_from(
    alloc: Global,
    steps: &Steps,
    is_left: &[bool],
    start: usize,
    most: usize,
) -> Result<Option<Vec<usize>>, AllocError> {
    let mut walk = Walk::begin(alloc, is_left, start)?;
    for number in 0..is_left.len() {
        let Some(place) = walk.todo.get(number).copied() else {
            break;
        };
        if at(&walk.far, place, most).saturating_add(1) >= most {
            break;
        }
        for next in steps.from(place) {
            if *next == start {
                return Ok(Some(way(alloc, &walk.back, place, is_left.len())?));
            }
            walk.go(place, *next)?;
        }
    }
    Ok(None)
}

/// The places of a shortest circle of those that are left, the first of these; none where they have
/// no circle.
fn circle(alloc: Global, steps: &Steps, is_left: &[bool]) -> Result<Vec<usize>, AllocError> {
    let mut best: Vec<usize> = Vec::new(alloc);
    for start in 0..is_left.len() {
        let most = if best.is_empty() { NONE } else { best.len() };
        if at(is_left, start, false) {
            if let Some(found) = shortest_from(alloc, steps, is_left, start, most)? {
                best = found;
            }
        }
    }
    Ok(best)
}

/// The places of a shortest circle, the first of these; then the same of the other places, until they
/// have none.
pub(crate) fn circles(alloc: Global, stuck: &[Stuck]) -> Result<Vec<Vec<usize>>, AllocError> {
    let steps = Steps::of(alloc, stuck)?;
    let mut is_left = vec![in alloc; true; stuck.len()]?;
    let mut circles = Vec::new(alloc);
    for _ in 0..stuck.len() {
        let found = circle(alloc, &steps, &is_left)?;
        if found.is_empty() {
            break;
        }
        for place in &found {
            put(&mut is_left, *place, false);
        }
        circles.push(found)?;
    }
    Ok(circles)
}
