//! What is asked for and lacks something, from the goals on.

use crate::given::{Asked, Had, is_unmet, things_of};
use crate::needs::Need;
use deb_text::next_word;
use import_closure::Shelf;
use std::alloc::AllocError;
use std::collections::BTreeMap;

/// A thing that a build lacks, and the need for which it is.
#[derive(Clone, Copy)]
pub struct Lack {
    pub thing: u32,
    pub need: usize,
}

/// What is asked for, the place of the build for it that lacks least, if there is one, and what that
/// lacks and some build gives.
#[derive(Drop)]
pub struct Looked {
    pub asked: u32,
    pub way: Option<usize>,
    pub lacks: Vec<Lack>,
}

/// All that is asked for, in the order in which it was met.
#[derive(Drop)]
pub struct AllLooked {
    pub list: Vec<Looked>,
    pub places: BTreeMap<u32, usize>,
}

/// How much a build lacks: needs that no build can bring, needs, packages; and how many profiles it has.
#[derive(PartialEq, Eq, PartialOrd, Ord, Drop)]
struct Rank {
    hopeless: usize,
    needs: usize,
    packages: usize,
    profiles: usize,
}

/// Tells whether a thing can neither be had nor be given by any build.
fn is_out_of_reach(had: &Had, thing: u32) -> bool {
    !had.made.gives(thing) && !had.is_giveable(thing)
}

/// Tells whether a need cannot be met whatever is built: nothing meets it, or no build gives a thing.
pub fn is_hopeless(had: &Had, asked: Asked, need: &Need) -> bool {
    is_unmet(asked, need)
        || things_of(asked, need)
            .iter()
            .any(|thing| is_out_of_reach(had, *thing))
}

/// The first thing of a need that no build gives.
pub fn first_out_of_reach(had: &Had, asked: Asked, need: &Need) -> Option<u32> {
    for thing in things_of(asked, need) {
        if is_out_of_reach(had, *thing) {
            return Some(*thing);
        }
    }
    None
}

fn word_count(text: &[u8]) -> usize {
    let mut count: usize = 0;
    let mut rest = text;
    while let Some((_word, behind)) = next_word(rest) {
        count = count.saturating_add(1);
        rest = behind;
    }
    count
}

/// Adds a need that cannot be met to a rank.
fn add_need(had: &Had, asked: Asked, need: &Need, rank: &mut Rank) -> Result<(), AllocError> {
    let lacking = had.lacking(asked.scope.alloc, asked, need)?;
    rank.needs = rank.needs.saturating_add(1);
    rank.packages = rank.packages.saturating_add(lacking.len());
    if is_hopeless(had, asked, need) {
        rank.hopeless = rank.hopeless.saturating_add(1);
    }
    Ok(())
}

fn rank_of(had: &Had, asked: Asked, place: usize) -> Result<Rank, AllocError> {
    let mut rank = Rank {
        hopeless: 0,
        needs: 0,
        packages: 0,
        profiles: 0,
    };
    if let Some(way) = asked.ways.ways.get(place) {
        rank.profiles = word_count(&way.profiles);
    }
    for need in had.needs_of(place) {
        if had.is_lacking(asked, need) {
            add_need(had, asked, need, &mut rank)?;
        }
    }
    Ok(rank)
}

/// Of some builds the first that lacks least.
fn least_of(had: &Had, asked: Asked, places: &[usize]) -> Result<Option<usize>, AllocError> {
    let mut least: Option<(usize, Rank)> = None;
    for place in places {
        let rank = rank_of(had, asked, *place)?;
        let is_less = match &least {
            Some((_, other)) => rank < *other,
            None => true,
        };
        if is_less {
            least = Some((*place, rank));
        }
    }
    match least {
        Some((place, _)) => Ok(Some(place)),
        None => Ok(None),
    }
}

fn has_lack(lacks: &[Lack], thing: u32) -> bool {
    lacks.iter().any(|lack| lack.thing == thing)
}

/// Puts what a need lacks and some build gives behind others.
fn push_lacks(
    had: &Had,
    asked: Asked,
    (number, need): (usize, &Need),
    lacks: &mut Vec<Lack>,
) -> Result<(), AllocError> {
    for thing in &had.lacking(asked.scope.alloc, asked, need)? {
        if !has_lack(lacks, *thing) && had.is_giveable(*thing) {
            lacks.push(Lack {
                thing: *thing,
                need: number,
            })?;
        }
    }
    Ok(())
}

/// What the build of a place lacks.
fn lacks_of(had: &Had, asked: Asked, place: usize) -> Result<Vec<Lack>, AllocError> {
    let mut lacks = Vec::new(asked.scope.alloc);
    for (number, need) in had.needs_of(place).iter().enumerate() {
        push_lacks(had, asked, (number, need), &mut lacks)?;
    }
    Ok(lacks)
}

/// Looks at what is asked for.
fn look(had: &Had, asked: Asked, shelf: &Shelf, number: u32) -> Result<Looked, AllocError> {
    let places = had.ways_for(asked, shelf, number)?;
    let way = least_of(had, asked, &places)?;
    let lacks = match way {
        Some(place) => lacks_of(had, asked, place)?,
        None => Vec::new(asked.scope.alloc),
    };
    Ok(Looked {
        asked: number,
        way,
        lacks,
    })
}

/// The goals that cannot be had.
fn goals_left(had: &Had, asked: Asked) -> Result<Vec<u32>, AllocError> {
    let mut left = Vec::new(asked.scope.alloc);
    let mut number = had.first;
    for _ in asked.goals {
        if !had.made.gives(number) {
            left.push(number)?;
        }
        number = number.saturating_add(1);
    }
    Ok(left)
}

impl AllLooked {
    /// Keeps what was looked at, and puts what it lacks behind what is to be looked at.
    fn keep(&mut self, looked: Looked, todo: &mut Vec<u32>) -> Result<(), AllocError> {
        for lack in &looked.lacks {
            todo.push(lack.thing)?;
        }
        self.places.insert(looked.asked, self.list.len())?;
        self.list.push(looked)?;
        Ok(())
    }

    /// What was looked at for this.
    pub fn get(&self, number: u32) -> Option<&Looked> {
        match self.places.get(&number) {
            Some(place) => self.list.get(*place),
            None => None,
        }
    }
}

/// Looks at all that is asked for and lacks something, from the goals on.
pub fn look_at_all(had: &Had, asked: Asked, shelf: &Shelf) -> Result<AllLooked, AllocError> {
    let alloc = asked.scope.alloc;
    let mut all = AllLooked {
        list: Vec::new(alloc),
        places: BTreeMap::new(alloc),
    };
    let mut todo = goals_left(had, asked)?;
    for at in 0..usize::MAX {
        let Some(number) = todo.get(at).copied() else {
            return Ok(all);
        };
        if all.get(number).is_none() {
            let looked = look(had, asked, shelf, number)?;
            all.keep(looked, &mut todo)?;
        }
    }
    Err(AllocError)
}
