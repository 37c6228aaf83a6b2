//! A search, and the arrays that it works on.

use crate::ask::Ask;
use crate::clauses::{Clauses, Literal, Watches};
use crate::trail::{Cause, Trail, Value};
use crate::{FarmNumbers, at, put};
use std::alloc::{AllocError, Global};

/// After how many conflicts a search gives up.
pub fn fuel(farm: &FarmNumbers) -> usize {
    farm.variants().saturating_mul(20).saturating_add(2_000)
}

/// What a search comes to.
#[derive(Drop)]
pub enum Found {
    /// The variants of a settled chroot that meets what was asked.
    Held(Vec<usize>),
    /// There is none.
    Nothing,
    /// It gave up.
    OutOfFuel,
}

/// The arrays of a search, by variant and by entry, made once for many searches.
#[derive(Drop)]
pub struct Search {
    alloc: Global,
    pub(crate) trail: Trail,
    pub(crate) clauses: Clauses,
    pub(crate) watches: Watches,
    /// By variant: it must not be there.
    shut: Vec<bool>,
    /// By entry: its clause is in.
    pub(crate) is_added: Vec<bool>,
    added: Vec<usize>,
    /// By variant: it would serve an entry that was looked at, and cannot be had.
    is_missing: Vec<bool>,
    missing: Vec<usize>,
    /// How far the literals were looked at: by the clauses, and for what they need.
    pub(crate) done: usize,
    pub(crate) asked: usize,
    pub(crate) scanned: usize,
    /// By variant, while a clause is learned: it stands in a clause that was gone through.
    pub(crate) is_seen: Vec<bool>,
    pub(crate) seen: Vec<usize>,
    pub(crate) learned: Vec<Literal>,
}

/// So many times `false`.
fn all_false(alloc: Global, count: usize) -> Result<Vec<bool>, AllocError> {
    let mut marks = Vec::new(alloc);
    for _ in 0..count {
        marks.push(false)?;
    }
    Ok(marks)
}

impl Search {
    /// The arrays for a farm.
    pub fn new(alloc: Global, farm: &FarmNumbers) -> Result<Search, AllocError> {
        let count = farm.variants();
        Ok(Search {
            alloc,
            trail: Trail::new(alloc, count)?,
            clauses: Clauses::new(alloc),
            watches: Watches::new(alloc, count)?,
            shut: all_false(alloc, count)?,
            is_added: all_false(alloc, farm.entries())?,
            added: Vec::new(alloc),
            is_missing: all_false(alloc, count)?,
            missing: Vec::new(alloc),
            done: 0,
            asked: 0,
            scanned: 0,
            is_seen: all_false(alloc, count)?,
            seen: Vec::new(alloc),
            learned: Vec::new(alloc),
        })
    }

    /// What would have served entries that the last search looked at, and could not be had.
    pub fn missing(&self) -> &[usize] {
        &self.missing
    }

    /// Tells whether a variant may be in the chroot; notes one that cannot be had.
    pub(crate) fn is_open(&mut self, ask: Ask<'_>, variant: usize) -> Result<bool, AllocError> {
        if at(&self.shut, variant, true) {
            return Ok(false);
        }
        if ask.is_usable(variant) {
            return Ok(true);
        }
        if !at(&self.is_missing, variant, true) {
            put(&mut self.is_missing, variant, true);
            self.missing.push(variant)?;
        }
        Ok(false)
    }

    /// Tells whether the variant must not be there.
    pub(crate) fn is_shut(&self, variant: usize) -> bool {
        at(&self.shut, variant, true)
    }

    /// Marks that the clause of an entry is in; `false` where it was already.
    pub(crate) fn mark_added(&mut self, entry: usize) -> Result<bool, AllocError> {
        if at(&self.is_added, entry, true) {
            return Ok(false);
        }
        put(&mut self.is_added, entry, true);
        self.added.push(entry)?;
        Ok(true)
    }

    /// Clears what the last search left.
    fn clear(&mut self) {
        self.trail.clear();
        self.watches.clear(self.clauses.all());
        self.clauses.clear();
        for place in 0..self.added.len() {
            let entry = at(&self.added, place, usize::MAX);
            put(&mut self.is_added, entry, false);
        }
        for place in 0..self.missing.len() {
            let variant = at(&self.missing, place, usize::MAX);
            put(&mut self.is_missing, variant, false);
        }
        self.added.clear();
        self.missing.clear();
        self.done = 0;
        self.asked = 0;
        self.scanned = 0;
    }

    /// Closes the open clause, has it watched and draws what follows by it alone. Gives its number
    /// where none of its literals can hold any more; it is watched for when they can again.
    pub(crate) fn add_clause(&mut self) -> Result<Option<usize>, AllocError> {
        let clause = self.clauses.close()?;
        self.put_first(clause, 0);
        self.put_first(clause, 1);
        let first = match self.clauses.literal(clause, 0) {
            Some(literal) => literal,
            None => return Ok(Some(clause)),
        };
        let is_last = match self.clauses.literal(clause, 1) {
            Some(second) => {
                self.watches.add(clause, first)?;
                self.watches.add(clause, second)?;
                self.trail.holds(second) == Some(false)
            }
            None => true,
        };
        match self.trail.holds(first) {
            Some(false) => return Ok(Some(clause)),
            None if is_last => self.trail.assign(first, Some(Cause::Clause(clause)))?,
            _ => {}
        }
        Ok(None)
    }

    /// Brings that literal of a clause to a place which is best watched, of those from there on: one
    /// that is not false, or else the one that was decided last.
    fn put_first(&mut self, clause: usize, place: usize) {
        let mut best = place;
        let mut highest = 0;
        let mut is_found = false;
        for (number, literal) in self.clauses.of(clause).iter().enumerate() {
            if number < place || is_found {
                continue;
            }
            let height = self.trail.level(literal.variant).saturating_add(1);
            if self.trail.holds(*literal) != Some(false) {
                best = number;
                is_found = true;
            } else if height > highest {
                best = number;
                highest = height;
            }
        }
        self.clauses.swap(clause, place, best);
    }

    /// Opens the question: what must hold in any case. `false` where it cannot.
    fn begin(&mut self, ask: Ask<'_>) -> Result<bool, AllocError> {
        for variant in ask.keep {
            if ask.farm.facts(*variant).is_essential && !ask.may_go(*variant) {
                let name = ask.farm.name(*variant);
                for other in ask.farm.first(name)..ask.farm.end(name) {
                    if self.is_open(ask, other)? {
                        self.clauses.push(Literal::present(other))?;
                    }
                }
                if self.add_clause()?.is_some() {
                    return Ok(false);
                }
            }
        }
        for entry in ask.needs {
            for variant in ask.farm.meets(*entry) {
                if self.is_open(ask, *variant)? {
                    self.clauses.push(Literal::present(*variant))?;
                }
            }
            if self.add_clause()?.is_some() {
                return Ok(false);
            }
        }
        self.begin_more(ask)
    }

    /// Adds the further clauses. `false` where one cannot hold.
    fn begin_more(&mut self, ask: Ask<'_>) -> Result<bool, AllocError> {
        for number in 0..ask.more.len() {
            for literal in ask.more.of(number) {
                if !literal.holds || self.is_open(ask, literal.variant)? {
                    self.clauses.push(*literal)?;
                }
            }
            if self.add_clause()?.is_some() {
                return Ok(false);
            }
        }
        Ok(true)
    }

    /// What the chroot holds once nothing is left to choose.
    fn held(&self) -> Result<Found, AllocError> {
        let mut held = Vec::new(self.alloc);
        for literal in self.trail.literals() {
            if literal.holds {
                held.push(literal.variant)?;
            }
        }
        Ok(Found::Held(held))
    }

    /// Goes on from what must hold to an answer.
    fn go_on(&mut self, ask: Ask<'_>) -> Result<Found, AllocError> {
        let mut conflicts = 0usize;
        let most = fuel(ask.farm);
        let turns = (ask.farm.variants().saturating_add(2)).saturating_mul(most.saturating_add(2));
        for _ in 0..turns {
            match self.propagate(ask)? {
                Some(conflict) => {
                    if self.trail.choices() == 0 {
                        return Ok(Found::Nothing);
                    }
                    conflicts = conflicts.saturating_add(1);
                    if conflicts > most {
                        return Ok(Found::OutOfFuel);
                    }
                    if !self.learn(conflict)? {
                        return Ok(Found::Nothing);
                    }
                }
                None => match self.choice(ask)? {
                    Some(variant) => self.trail.choose(variant)?,
                    None => return self.held(),
                },
            }
        }
        Ok(Found::OutOfFuel)
    }

    /// Looks for the variants of a settled chroot that meets what is asked. What is kept gives way
    /// where it must: to another version, or, where it is not Essential, to nothing.
    pub fn find(&mut self, ask: Ask<'_>) -> Result<Found, AllocError> {
        self.clear();
        for variant in ask.clashes {
            put(&mut self.shut, *variant, true);
        }
        let found = match self.begin(ask)? {
            true => self.go_on(ask),
            false => Ok(Found::Nothing),
        };
        for variant in ask.clashes {
            put(&mut self.shut, *variant, false);
        }
        found
    }

    /// Looks for such a chroot; where there is none, or that is not known, asks loosely.
    pub fn find_any(&mut self, ask: Ask<'_>) -> Result<Found, AllocError> {
        match self.find(ask)? {
            Found::Held(found) => Ok(Found::Held(found)),
            Found::Nothing | Found::OutOfFuel => self.find(ask.loosely()),
        }
    }

    /// Tells what is decided about a variant.
    pub(crate) fn value(&self, variant: usize) -> Value {
        self.trail.value(variant)
    }
}
