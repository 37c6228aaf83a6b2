//! Leaving out what the end does not need: one after another the dear builds, and those of a source
//! that has another; the heaviest first, and of these the last.

use crate::cone::cone_of;
use crate::making::Making;
use crate::numbers::{at, put};
use crate::task::Task;
use std::alloc::AllocError;

/// By place: whether a build is dear, or another of some builds is of its source.
fn tried_of(task: Task<'_>, places: &[usize]) -> Result<Vec<bool>, AllocError> {
    let mut is_tried = Vec::new(task.alloc);
    for build in task.builds {
        is_tried.push(build.is_dear)?;
    }
    let mut sources = Vec::new(task.alloc);
    for place in places {
        match task.builds.get(*place) {
            Some(build) => sources.push((build.source, *place))?,
            None => {}
        }
    }
    sources.sort()?;
    let mut last = None;
    for (source, place) in &sources {
        match last {
            Some((before, other)) if before == *source => {
                put(&mut is_tried, other, true);
                put(&mut is_tried, *place, true);
            }
            _ => {}
        }
        last = Some((*source, *place));
    }
    Ok(is_tried)
}

/// Some builds, the lightest first, and of these the first.
fn by_weight(task: Task<'_>, places: &[usize]) -> Result<Vec<usize>, AllocError> {
    let mut keys = Vec::new(task.alloc);
    for place in places {
        match task.builds.get(*place) {
            Some(build) => keys.push((build.weight, *place))?,
            None => {}
        }
    }
    keys.sort()?;
    let mut order = Vec::new(task.alloc);
    for (_, place) in &keys {
        order.push(*place)?;
    }
    Ok(order)
}

/// Some builds without one.
fn without(task: Task<'_>, places: &[usize], place: usize) -> Result<Vec<usize>, AllocError> {
    let mut rest = Vec::new(task.alloc);
    for other in places {
        if *other != place {
            rest.push(*other)?;
        }
    }
    Ok(rest)
}

/// What is kept of some builds where one is left out, if the end can be made without it.
fn left_out(
    task: Task<'_>,
    kept: &[usize],
    place: usize,
) -> Result<Option<Vec<usize>>, AllocError> {
    let rest = without(task, kept, place)?;
    if rest.len() == kept.len() || !Making::new(task, &rest)?.has_end(task) {
        return Ok(None);
    }
    Ok(Some(cone_of(task, &rest)?))
}

/// What is kept of some builds that lead to the end, in the order of places.
pub(crate) fn without_needless(task: Task<'_>, places: &[usize]) -> Result<Vec<usize>, AllocError> {
    let mut kept = cone_of(task, places)?;
    let is_tried = tried_of(task, &kept)?;
    let order = by_weight(task, &kept)?;
    for place in order.iter().rev() {
        if at(&is_tried, *place, false) {
            match left_out(task, &kept, *place)? {
                Some(rest) => kept = rest,
                None => {}
            }
        }
    }
    Ok(kept)
}
