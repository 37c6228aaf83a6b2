//! How much was taken, and the limits of a farm.

use crate::taken::Taken;
use deb_stanza::MOST_BYTES;
use farm_universe::limits::{MOST_BASES, MOST_ENTRIES, MOST_NAMES, MOST_RECIPES, MOST_SOURCES};
use import_closure::{Given, Shelf};

/// How many counts there are.
pub const COUNTS: usize = 7;

/// A count of what was taken, and its limit, where it has one.
#[derive(Clone, Copy)]
pub struct Count {
    pub count: usize,
    pub most: Option<usize>,
}

impl Count {
    /// Tells whether it is over its limit.
    pub fn is_over(&self) -> bool {
        match self.most {
            Some(most) => self.count > most,
            None => false,
        }
    }
}

/// The entries of all relation fields of a package.
fn entries_of(given: &Given) -> usize {
    let five = &given.relations;
    five.pre_depends
        .len()
        .saturating_add(five.depends.len())
        .saturating_add(five.conflicts.len())
        .saturating_add(five.breaks.len())
        .saturating_add(five.provides.len())
}

fn entries_at(shelf: &Shelf, number: u32) -> usize {
    match shelf.given(number) {
        Some(given) => entries_of(given),
        None => 0,
    }
}

/// The entries of what is there at the beginning and of what builds give.
fn all_entries(shelf: &Shelf, taken: &Taken) -> usize {
    let mut count: usize = 0;
    for number in &taken.there.closure.begin {
        count = count.saturating_add(entries_at(shelf, *number));
    }
    for build in &taken.builds {
        for number in &build.outputs {
            count = count.saturating_add(entries_at(shelf, *number));
        }
    }
    count
}

fn limited(count: usize, most: usize) -> Count {
    Count {
        count,
        most: Some(most),
    }
}

/// All counts: of names, variants, sources that were chosen, recipes and base chroots, of the bytes
/// of the longer one of the texts of packages and sources, and of relation entries.
pub fn counts(shelf: &Shelf, taken: &Taken, sources: usize, bytes: usize) -> [Count; COUNTS] {
    [
        limited(taken.numbered.variants.names(), MOST_NAMES),
        Count {
            count: taken.numbered.variants.count(),
            most: None,
        },
        limited(sources, MOST_SOURCES),
        limited(taken.builds.len(), MOST_RECIPES),
        limited(taken.there.chroots.len(), MOST_BASES),
        limited(bytes, MOST_BYTES),
        limited(all_entries(shelf, taken), MOST_ENTRIES),
    ]
}

/// Tells whether one of the counts is over its limit.
pub fn are_over(counts: &[Count]) -> bool {
    counts.iter().any(|count| count.is_over())
}
