//! Lanes that are looked for, with recipes left out where that is asked for.

use crate::{About, left_out_note, overrun_note, refusal_note, stuck_note};
use draft_lanes::{Lane, Order, Placed, Published, Watch, Wish, place};
use draft_search::Search;
use std::alloc::AllocError;

/// Lanes that were found, what they publish, which recipes are left out, and lines on that.
#[derive(Drop)]
pub(crate) struct Lanes {
    pub(crate) lanes: Vec<Lane>,
    pub(crate) published: Published,
    pub(crate) left: Vec<usize>,
    pub(crate) told: Vec<u8>,
}

/// What looking for lanes comes to.
#[derive(Drop)]
pub(crate) enum Looked {
    Found(Lanes),
    /// There are none, as these lines say.
    Refused(Vec<u8>),
    /// No lanes, and no cause.
    Nothing,
}

/// What one round comes to.
#[derive(Drop)]
enum Round {
    Found(Vec<Lane>, Published),
    /// These recipes keep the others from being built.
    Stuck(Vec<usize>),
    Nothing,
}

/// Those of recipes that are stuck behind none of them in their lane.
fn first_ones(about: &About<'_>, order: &Order, stuck: &[usize]) -> Result<Vec<usize>, AllocError> {
    let mut first = Vec::new(about.alloc);
    for recipe in stuck {
        let is_behind = match order.before(*recipe) {
            Some(before) => stuck.contains(&before),
            None => false,
        };
        if !is_behind {
            first.push(*recipe)?;
        }
    }
    Ok(first)
}

/// The first lane that costs more than its budget, that budget, and the build by which it does.
fn overrun(about: &About<'_>, lanes: &[Lane]) -> Option<(usize, u64, usize)> {
    for (number, lane) in lanes.iter().enumerate() {
        let budget = match about.lanes.get(number) {
            Some(wanted) => wanted.budget.unwrap_or(u64::MAX),
            None => u64::MAX,
        };
        for (recipe, cost) in lane.ends() {
            if *cost > budget {
                return Some((number, budget, *recipe));
            }
        }
    }
    None
}

/// The lanes, if each keeps to its budget.
fn within_budgets(
    about: &About<'_>,
    lanes: Vec<Lane>,
    published: Published,
    told: &mut Vec<u8>,
) -> Result<Round, AllocError> {
    let Some((number, budget, recipe)) = overrun(about, &lanes) else {
        return Ok(Round::Found(lanes, published));
    };
    let cost = match lanes.get(number) {
        Some(lane) => lane.cost(),
        None => 0,
    };
    let lines = overrun_note(about.alloc, about.lane_name(number), cost, budget)?;
    told.extend_from_slice(&lines)?;
    let mut stuck = Vec::new(about.alloc);
    stuck.push(recipe)?;
    Ok(Round::Stuck(stuck))
}

/// One round: puts lines on what is in the way behind those that were told.
fn one_round<W: Watch>(
    about: &About<'_>,
    search: &mut Search,
    wish: &Wish,
    told: &mut Vec<u8>,
    watch: &W,
) -> Result<Round, AllocError> {
    let order = Order::find(about.alloc, about.numbers, search, wish)?;
    let stuck = order.stuck(about.alloc)?;
    if !stuck.is_empty() {
        let lines = stuck_note(about, search, wish, &order, &stuck)?;
        told.extend_from_slice(&lines)?;
        return Ok(Round::Stuck(first_ones(about, &order, &stuck)?));
    }
    let placed = place(about.alloc, about.numbers, search, wish, &order, watch)?;
    watch.ends();
    match placed {
        Placed::Lanes(lanes, published) => within_budgets(about, lanes, published, told),
        Placed::Refused(refusal) => {
            let lines = refusal_note(about, &refusal)?;
            told.extend_from_slice(&lines)?;
            let mut stuck = Vec::new(about.alloc);
            stuck.push(refusal.recipe())?;
            Ok(Round::Stuck(stuck))
        }
        Placed::Nothing => Ok(Round::Nothing),
    }
}

/// The lanes that were found, with the line that names what is left out.
fn found(
    about: &About<'_>,
    lanes: Vec<Lane>,
    published: Published,
    left: Vec<usize>,
    mut told: Vec<u8>,
) -> Result<Looked, AllocError> {
    let line = left_out_note(about, &left)?;
    told.extend_from_slice(&line)?;
    Ok(Looked::Found(Lanes {
        lanes,
        published,
        left,
        told,
    }))
}

/// Looks for lanes. With `is_partial` what is in the way is left out, and the rest is looked for
/// again.
pub(crate) fn look<W: Watch>(
    about: &About<'_>,
    first: Wish,
    is_partial: bool,
    watch: &W,
) -> Result<Looked, AllocError> {
    let alloc = about.alloc;
    let mut search = Search::new(alloc, about.numbers)?;
    let mut wish = first;
    let mut told = Vec::new(alloc);
    let mut left: Vec<usize> = Vec::new(alloc);
    for _ in 0..=about.numbers.recipes() {
        match one_round(about, &mut search, &wish, &mut told, watch)? {
            Round::Found(lanes, published) => return found(about, lanes, published, left, told),
            Round::Stuck(stuck) => {
                if !is_partial || stuck.is_empty() {
                    return Ok(Looked::Refused(told));
                }
                left.extend_from_slice(&stuck)?;
                wish = wish.without(alloc, &stuck)?;
            }
            Round::Nothing => return Ok(Looked::Nothing),
        }
    }
    Ok(Looked::Nothing)
}
