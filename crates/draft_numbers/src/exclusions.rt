//! Who excludes whom.

use crate::entries::EntryLists;
use crate::looks::relations_of;
use crate::pairs::Pairs;
use crate::satisfying::Ground;
use draft_search::{Exclusions, Facts, Lists};
use farm_universe::Variant;
use std::alloc::{AllocError, Global};

/// The number of the name of a variant.
fn name_of(facts: &[Facts], number: usize) -> usize {
    match facts.get(number) {
        Some(facts) => facts.name,
        None => usize::MAX,
    }
}

/// A pair is one of different names.
fn are_apart(facts: &[Facts], first: usize, second: usize) -> bool {
    name_of(facts, first) != name_of(facts, second)
}

/// The variants that each conflicts with, declared by either.
fn conflicts_of<'a>(
    alloc: Global,
    ground: Ground<'a>,
    lists: &mut EntryLists<'a>,
    all: &[Variant],
    facts: &[Facts],
) -> Result<Lists, AllocError> {
    let mut pairs = Pairs::new(alloc, all.len())?;
    for (number, variant) in all.iter().enumerate() {
        let Some(relations) = relations_of(ground.universe, *variant) else {
            continue;
        };
        for list in &lists.lists_of(&relations.conflicts)? {
            for other in lists.lists().of(*list) {
                if are_apart(facts, number, *other) {
                    pairs.add_both(number, *other)?;
                }
            }
        }
    }
    pairs.into_lists(alloc)
}

/// The variants that each breaks.
fn breaks_of<'a>(
    alloc: Global,
    ground: Ground<'a>,
    lists: &mut EntryLists<'a>,
    all: &[Variant],
    facts: &[Facts],
) -> Result<Lists, AllocError> {
    let mut pairs = Pairs::new(alloc, all.len())?;
    for (number, variant) in all.iter().enumerate() {
        let Some(relations) = relations_of(ground.universe, *variant) else {
            continue;
        };
        for list in &lists.lists_of(&relations.breaks)? {
            for other in lists.lists().of(*list) {
                if are_apart(facts, number, *other) {
                    pairs.add(number, *other)?;
                }
            }
        }
    }
    pairs.into_lists(alloc)
}

/// The variants beside which each cannot be configured.
fn excludes_of(
    alloc: Global,
    conflicts: &Lists,
    breaks: &Lists,
    count: usize,
) -> Result<Lists, AllocError> {
    let mut pairs = Pairs::new(alloc, count)?;
    for number in 0..count {
        for other in conflicts.of(number) {
            pairs.add(number, *other)?;
        }
        for other in breaks.of(number) {
            pairs.add_both(number, *other)?;
        }
    }
    pairs.into_lists(alloc)
}

/// Who excludes whom, of these variants.
///
/// # Errors
///
/// [`AllocError`] where memory is refused, or there are too many pairs.
pub(crate) fn exclusions_of<'a>(
    alloc: Global,
    ground: Ground<'a>,
    lists: &mut EntryLists<'a>,
    all: &[Variant],
    facts: &[Facts],
) -> Result<Exclusions, AllocError> {
    let conflicts = conflicts_of(alloc, ground, lists, all, facts)?;
    let breaks = breaks_of(alloc, ground, lists, all, facts)?;
    let excludes = excludes_of(alloc, &conflicts, &breaks, all.len())?;
    Ok(Exclusions {
        conflicts,
        breaks,
        excludes,
    })
}
