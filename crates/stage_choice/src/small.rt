//! A small order that leads to the end.

use crate::StagedBuild;
use crate::cheapest::cheapest;
use crate::cone::order_of;
use crate::landmarks::{both, fewest_dear, those_dear};
use crate::making::rounds_of;
use crate::needless::without_needless;
use crate::places::weight_of;
use crate::task::{Askers, Task};
use std::alloc::{AllocError, Global};

/// A small set of some builds that leads to the end, in the order of places.
fn small_set(
    alloc: Global,
    builds: &[StagedBuild],
    places: &[usize],
    end: usize,
) -> Result<Vec<usize>, AllocError> {
    let askers = Askers::new(alloc, builds, places)?;
    let found = cheapest(task_of(alloc, builds, &askers, end), places)?;
    let askers = Askers::new(alloc, builds, &found)?;
    without_needless(task_of(alloc, builds, &askers, end), &found)
}

fn task_of<'a>(
    alloc: Global,
    builds: &'a [StagedBuild],
    askers: &'a Askers,
    end: usize,
) -> Task<'a> {
    Task {
        alloc,
        builds,
        askers,
        end,
    }
}

/// Tells whether a list of places stands ahead of another: by its first place that differs.
fn is_ahead(places: &[usize], others: &[usize]) -> bool {
    for (number, place) in places.iter().enumerate() {
        match others.get(number) {
            Some(other) if place == other => {}
            Some(other) => return place < other,
            None => return false,
        }
    }
    places.len() < others.len()
}

/// The lighter one of two sets; of equal ones that whose places come first.
fn lighter(builds: &[StagedBuild], set: Vec<usize>, other: Vec<usize>) -> Vec<usize> {
    let (weight, other_weight) = (weight_of(builds, &set), weight_of(builds, &other));
    if weight < other_weight || weight == other_weight && is_ahead(&set, &other) {
        set
    } else {
        other
    }
}

/// The places of all builds.
fn all_places(alloc: Global, builds: &[StagedBuild]) -> Result<Vec<usize>, AllocError> {
    let mut places = Vec::new(alloc);
    for place in 0..builds.len() {
        places.push(place)?;
    }
    Ok(places)
}

/// Builds that are not dear, and few that are, with which the end is reached; nothing where the
/// search for them gave up.
fn few_dear(task: Task<'_>) -> Result<Option<Vec<usize>>, AllocError> {
    match fewest_dear(task)? {
        Some(few) => Ok(Some(both(task, &those_dear(task, false)?, &few)?)),
        None => Ok(None),
    }
}

/// A small set of builds that leads to the end, where all together do.
fn chosen_set(alloc: Global, builds: &[StagedBuild], end: usize) -> Result<Vec<usize>, AllocError> {
    let all = all_places(alloc, builds)?;
    let askers = Askers::new(alloc, builds, &all)?;
    let of_all = small_set(alloc, builds, &all, end)?;
    match few_dear(task_of(alloc, builds, &askers, end))? {
        Some(places) => {
            let of_few = small_set(alloc, builds, &places, end)?;
            Ok(lighter(builds, of_few, of_all))
        }
        None => Ok(of_all),
    }
}

/// A small set that leads to the end, without that, in an order in which it can be made.
pub(crate) fn small_order(
    alloc: Global,
    builds: &[StagedBuild],
    end: usize,
) -> Result<Vec<usize>, AllocError> {
    let set = chosen_set(alloc, builds, end)?;
    let askers = Askers::new(alloc, builds, &set)?;
    let mut order = order_of(task_of(alloc, builds, &askers, end), &set)?;
    match order.last() {
        Some(last) if *last == end => order.truncate(order.len().saturating_sub(1)),
        _ => {}
    }
    Ok(order)
}

/// How many rounds it takes to make some builds, if in each round all is made that can be.
pub(crate) fn round_count(
    alloc: Global,
    builds: &[StagedBuild],
    order: &[usize],
) -> Result<usize, AllocError> {
    let askers = Askers::new(alloc, builds, order)?;
    rounds_of(task_of(alloc, builds, &askers, builds.len()), order)
}
