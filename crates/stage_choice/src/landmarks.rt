//! The fewest dear builds with which the end is reached.
//!
//! Some dear builds that do not lead to the end, with all that are not dear, are made as many as they
//! can be, the end unmade. Of those left out one must be chosen: they are a landmark. A small set with
//! one of each landmark is what is tried next.

use crate::hitting::Landmarks;
use crate::making::Making;
use crate::numbers::at;
use crate::task::Task;
use std::alloc::AllocError;

/// After how many landmarks the search gives up.
const MOST_LANDMARKS: usize = 400;

/// The dear builds, or those that are not.
pub(crate) fn those_dear(task: Task<'_>, is_dear: bool) -> Result<Vec<usize>, AllocError> {
    let mut places = Vec::new(task.alloc);
    for (place, build) in task.builds.iter().enumerate() {
        if build.is_dear == is_dear {
            places.push(place)?;
        }
    }
    Ok(places)
}

/// How many needs a build meets.
fn uses_of(task: Task<'_>, place: usize) -> usize {
    let mut uses = 0usize;
    for thing in task.gives(place) {
        uses = uses.saturating_add(task.askers.of(*thing).len());
    }
    uses
}

/// How many needs each of some builds meets.
fn uses_of_all(task: Task<'_>, places: &[usize]) -> Result<Vec<usize>, AllocError> {
    let mut uses = Vec::new(task.alloc);
    for place in places {
        uses.push(uses_of(task, *place))?;
    }
    Ok(uses)
}

/// In which order dear builds are tried, by turns: first those in few landmarks, or first those that
/// meet many needs.
fn order_of(
    task: Task<'_>,
    dear: &[usize],
    uses: &[usize],
    marks: &Landmarks,
) -> Result<Vec<usize>, AllocError> {
    let mut keys = Vec::new(task.alloc);
    for (number, place) in dear.iter().enumerate() {
        let uses = at(uses, number, 0);
        keys.push(if marks.len() % 2 == 1 {
            (usize::MAX - uses, 0, *place)
        } else {
            (marks.count(*place), uses, *place)
        })?;
    }
    keys.sort()?;
    let mut order = Vec::new(task.alloc);
    for (_, _, place) in &keys {
        order.push(*place)?;
    }
    Ok(order)
}

/// Those of which one must be chosen beside some; nothing where these lead to the end.
fn landmark(
    task: Task<'_>,
    places: &[usize],
    order: &[usize],
) -> Result<Option<Vec<usize>>, AllocError> {
    let mut making = Making::new(task, places)?;
    if making.has_end(task) {
        return Ok(None);
    }
    let mut outside = Vec::new(task.alloc);
    for place in order {
        if !making.open(task, *place)? {
            outside.push(*place)?;
        }
    }
    Ok(Some(outside))
}

/// Some builds and others.
pub(crate) fn both(
    task: Task<'_>,
    places: &[usize],
    others: &[usize],
) -> Result<Vec<usize>, AllocError> {
    let mut found = Vec::new(task.alloc);
    found.extend_from_slice(places)?;
    found.extend_from_slice(others)?;
    Ok(found)
}

/// Few dear builds with which, and with all others, the end is reached. Nothing where too many
/// landmarks do not tell, or a landmark is empty: all builds together do not lead to the end.
pub(crate) fn fewest_dear(task: Task<'_>) -> Result<Option<Vec<usize>>, AllocError> {
    let (dear, cheap) = (those_dear(task, true)?, those_dear(task, false)?);
    let uses = uses_of_all(task, &dear)?;
    let mut marks = Landmarks::new(task)?;
    let mut chosen = Vec::new(task.alloc);
    for _ in 0..MOST_LANDMARKS {
        let order = order_of(task, &dear, &uses, &marks)?;
        match landmark(task, &both(task, &cheap, &chosen)?, &order)? {
            None => return Ok(Some(chosen)),
            Some(mark) => chosen = marks.hitting_with(task, &dear, mark)?,
        }
    }
    Ok(None)
}
