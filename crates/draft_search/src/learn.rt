//! What a conflict teaches: a clause that follows, by the first unique implication point.

use crate::clauses::Literal;
use crate::search::Search;
use crate::trail::Cause;
use crate::{at, put};
use std::alloc::AllocError;

impl Search {
    /// Sees a literal that does not hold, if it was decided after the first choice. One of an
    /// earlier choice is learned; tells how many there are of the last choice, which is 1 or 0.
    fn see_literal(&mut self, literal: Literal) -> Result<usize, AllocError> {
        let level = self.trail.level(literal.variant);
        if level == 0 || at(&self.is_seen, literal.variant, true) {
            return Ok(0);
        }
        put(&mut self.is_seen, literal.variant, true);
        self.seen.push(literal.variant)?;
        if level == self.trail.choices() {
            return Ok(1);
        }
        self.learned.push(literal)?;
        Ok(0)
    }

    /// Sees the literals of a cause; tells how many there are of the last choice.
    fn see(&mut self, cause: Cause) -> Result<usize, AllocError> {
        let mut of_last = 0usize;
        match cause {
            Cause::Clause(clause) => {
                for place in 0..self.clauses.of(clause).len() {
                    match self.clauses.literal(clause, place) {
                        Some(literal) => {
                            of_last = of_last.saturating_add(self.see_literal(literal)?);
                        }
                        None => {}
                    }
                }
            }
            Cause::Apart(variant, other) => {
                of_last = self.see_literal(Literal::absent(variant))?;
                of_last = of_last.saturating_add(self.see_literal(Literal::absent(other))?);
            }
        }
        Ok(of_last)
    }

    /// The place of the last literal before a place that was seen and decided at the last choice.
    fn last_seen(&self, end: usize) -> Option<usize> {
        let here = self.trail.choices();
        for passed in 0..end {
            let place = end - 1 - passed;
            match self.trail.literal(place) {
                Some(literal) => {
                    if at(&self.is_seen, literal.variant, false)
                        && self.trail.level(literal.variant) == here
                    {
                        return Some(place);
                    }
                }
                None => {}
            }
        }
        None
    }

    /// The literal of the last choice through which all of the conflict goes.
    fn implication_point(&mut self, conflict: Cause) -> Result<Option<Literal>, AllocError> {
        let mut cause = conflict;
        let mut of_last = 0usize;
        let mut end = self.trail.len();
        for _ in 0..=self.trail.len() {
            of_last = of_last.saturating_add(self.see(cause)?);
            let Some(place) = self.last_seen(end) else {
                return Ok(None);
            };
            let Some(literal) = self.trail.literal(place) else {
                return Ok(None);
            };
            end = place;
            of_last = of_last.saturating_sub(1);
            if of_last == 0 {
                return Ok(Some(literal));
            }
            match self.trail.reason(literal.variant) {
                Some(reason) => cause = reason,
                None => return Ok(None),
            }
        }
        Ok(None)
    }

    /// The last choice but one at which a literal of the learned clause was decided.
    fn back(&self) -> usize {
        let mut back = 0;
        for literal in &self.learned {
            back = back.max(self.trail.level(literal.variant));
        }
        back
    }

    /// Forgets which variants were seen.
    fn forget_seen(&mut self) {
        for place in 0..self.seen.len() {
            let variant = at(&self.seen, place, usize::MAX);
            put(&mut self.is_seen, variant, false);
        }
        self.seen.clear();
    }

    /// Adds the learned clause, with the contrary of a literal.
    fn add_learned(&mut self, literal: Literal) -> Result<bool, AllocError> {
        self.clauses.push(literal.contrary())?;
        for place in 0..self.learned.len() {
            match self.learned.get(place) {
                Some(other) => self.clauses.push(*other)?,
                None => {}
            }
        }
        self.learned.clear();
        Ok(self.add_clause()?.is_none())
    }

    /// Learns a clause from a conflict, and goes back to where it says something. `false` where there
    /// is nothing to go back to.
    pub(crate) fn learn(&mut self, conflict: Cause) -> Result<bool, AllocError> {
        let point = self.implication_point(conflict)?;
        self.forget_seen();
        let Some(literal) = point else {
            self.learned.clear();
            return Ok(false);
        };
        let back = self.back();
        self.trail.go_back(back);
        self.done = self.done.min(self.trail.len());
        self.asked = 0;
        self.scanned = 0;
        self.add_learned(literal)
    }
}
