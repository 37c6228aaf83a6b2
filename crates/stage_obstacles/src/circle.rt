//! The shortest circle of things that are asked for: the first lines of the refusal 709.

use crate::given::{Asked, Had, source_name};
use crate::hopeless::push_need;
use crate::looked::{AllLooked, Looked};
use crate::spelled::{push_block_package, source_of};
use deb_text::push_pieces;
use import_closure::Shelf;
use std::alloc::{AllocError, Global};
use std::cmp::Ordering;
use std::collections::BTreeSet;

/// A step of a walk: what is asked for, from which step it was met, and how many steps it is from the
/// start.
#[derive(Clone, Copy)]
struct Step {
    asked: u32,
    before: usize,
    depth: usize,
}

fn asks_for(looked: &Looked, number: u32) -> bool {
    looked.lacks.iter().any(|lack| lack.thing == number)
}

/// The way from the start of a walk to one of its steps.
fn way_to(alloc: Global, walk: &[Step], at: usize) -> Result<Vec<u32>, AllocError> {
    let mut way = Vec::new(alloc);
    let mut place = at;
    for _ in 0..walk.len() {
        let Some(step) = walk.get(place) else {
            break;
        };
        way.push(step.asked)?;
        if step.depth == 0 {
            break;
        }
        place = step.before;
    }
    way.reverse();
    Ok(way)
}

/// Puts those that a step asks for behind the others of a walk, each once.
fn push_steps(
    walk: &mut Vec<Step>,
    seen: &mut BTreeSet<u32>,
    looked: &Looked,
    at: usize,
    depth: usize,
) -> Result<(), AllocError> {
    for lack in &looked.lacks {
        if seen.insert(lack.thing)? {
            walk.push(Step {
                asked: lack.thing,
                before: at,
                depth,
            })?;
        }
    }
    Ok(())
}

/// The first shortest circle from a start, of no more than so many steps.
fn circle_from(
    alloc: Global,
    all: &AllLooked,
    start: u32,
    most: usize,
) -> Result<Option<Vec<u32>>, AllocError> {
    let mut seen = BTreeSet::new(alloc);
    let mut walk = Vec::new(alloc);
    seen.insert(start)?;
    walk.push(Step {
        asked: start,
        before: 0,
        depth: 0,
    })?;
    for at in 0..usize::MAX {
        let Some(step) = walk.get(at).copied() else {
            return Ok(None);
        };
        if step.depth >= most {
            return Ok(None);
        }
        if let Some(looked) = all.get(step.asked) {
            if asks_for(looked, start) {
                return Ok(Some(way_to(alloc, &walk, at)?));
            }
            push_steps(
                &mut walk,
                &mut seen,
                looked,
                at,
                step.depth.saturating_add(1),
            )?;
        }
    }
    Ok(None)
}

/// The name of the source of the build for what is asked for that lacks least.
fn name_of<'a>(asked: Asked<'a>, all: &AllLooked, number: u32) -> &'a [u8] {
    let Some(looked) = all.get(number) else {
        return b"";
    };
    let Some(place) = looked.way else {
        return b"";
    };
    match asked.ways.ways.get(place) {
        Some(way) => source_name(asked, way.source),
        None => b"",
    }
}

/// Compares two circles by the names of their sources.
fn compare_names(asked: Asked, all: &AllLooked, one: &[u32], other: &[u32]) -> Ordering {
    for (a, b) in one.iter().zip(other) {
        let order = name_of(asked, all, *a).cmp(name_of(asked, all, *b));
        if order != Ordering::Equal {
            return order;
        }
    }
    one.len().cmp(&other.len())
}

/// A circle begun at its step of a place.
fn turned(alloc: Global, circle: &[u32], place: usize) -> Result<Vec<u32>, AllocError> {
    let mut turned = Vec::new(alloc);
    turned.extend_from_slice(circle.get(place..).unwrap_or(&[]))?;
    turned.extend_from_slice(circle.get(..place).unwrap_or(&[]))?;
    Ok(turned)
}

/// Tells whether a circle is shorter than the shortest so far, or as short and first by its names.
fn is_before(asked: Asked, all: &AllLooked, best: &[u32], circle: &[u32]) -> bool {
    best.is_empty()
        || circle.len() < best.len()
        || circle.len() == best.len() && compare_names(asked, all, circle, best) == Ordering::Less
}

/// Keeps the best of the shortest circle so far and of another, begun at each of its steps.
fn keep_best(
    asked: Asked,
    all: &AllLooked,
    best: &mut Vec<u32>,
    circle: &[u32],
) -> Result<(), AllocError> {
    for place in 0..circle.len() {
        let turned = turned(asked.scope.alloc, circle, place)?;
        if is_before(asked, all, best, &turned) {
            *best = turned;
        }
    }
    Ok(())
}

/// A shortest circle of what is asked for, each asking for the next; of equal ones the first by names.
/// Nothing where there is none.
fn shortest_circle(asked: Asked, all: &AllLooked) -> Result<Vec<u32>, AllocError> {
    let alloc = asked.scope.alloc;
    let mut best: Vec<u32> = Vec::new(alloc);
    for looked in &all.list {
        let most = if best.is_empty() {
            usize::MAX
        } else {
            best.len()
        };
        if let Some(circle) = circle_from(alloc, all, looked.asked, most)? {
            keep_best(asked, all, &mut best, &circle)?;
        }
    }
    Ok(best)
}

/// Puts the need behind a text for which what is asked for asks for another thing.
fn push_step(
    text: &mut Vec<u8>,
    had: &Had,
    asked: Asked,
    looked: &Looked,
    after: u32,
) -> Result<(), AllocError> {
    let Some(place) = looked.way else {
        return Ok(());
    };
    let Some(way) = asked.ways.ways.get(place) else {
        return Ok(());
    };
    for lack in &looked.lacks {
        if lack.thing == after {
            if let Some(need) = had.needs_of(place).get(lack.need) {
                return push_need(text, asked, way, need, true);
            }
        }
    }
    Ok(())
}

/// Puts the two lines on a step of a circle behind a text.
fn push_lines(
    text: &mut Vec<u8>,
    had: &Had,
    asked: Asked,
    shelf: &Shelf,
    looked: &Looked,
    after: u32,
) -> Result<(), AllocError> {
    push_step(text, had, asked, looked, after)?;
    text.extend_from_slice(b"\n    ")?;
    if let Some(number) = asked.ways.stock.things.block(after) {
        push_block_package(text, shelf, number)?;
        push_pieces(text, &[b" of source ", source_of(shelf, number)])?;
    }
    text.extend_from_slice(b"\n")
}

/// Puts the lines of the refusal behind a text that tell of the shortest circle.
pub fn push_circle(
    text: &mut Vec<u8>,
    had: &Had,
    asked: Asked,
    shelf: &Shelf,
    all: &AllLooked,
) -> Result<(), AllocError> {
    let circle = shortest_circle(asked, all)?;
    text.extend_from_slice(b"refused 709 sources")?;
    for number in &circle {
        push_pieces(text, &[b" ", name_of(asked, all, *number)])?;
    }
    text.extend_from_slice(b"\n")?;
    let next = turned(asked.scope.alloc, &circle, 1)?;
    for (number, after) in circle.iter().zip(&next) {
        if let Some(looked) = all.get(*number) {
            push_lines(text, had, asked, shelf, looked, *after)?;
        }
    }
    Ok(())
}
