//! What follows from what is decided.

use crate::ask::Ask;
use crate::clauses::Literal;
use crate::search::Search;
use crate::trail::{Cause, Value};
use std::alloc::AllocError;

/// What becomes of a watch whose literal is false now.
enum Watched {
    /// It stays.
    Stays,
    /// It watches another literal, and stands in that one's list.
    Moved,
    /// Its clause has no literal any more that could hold.
    Broken,
}

impl Search {
    /// Draws all that follows. Gives a conflict, if there is one.
    pub(crate) fn propagate(&mut self, ask: Ask<'_>) -> Result<Option<Cause>, AllocError> {
        for _ in 0..=ask.farm.variants() {
            let literal = match self.trail.literal(self.done) {
                Some(literal) => literal,
                None => return Ok(None),
            };
            self.done = self.done.saturating_add(1);
            match self.visit(literal.contrary())? {
                Some(clause) => return Ok(Some(Cause::Clause(clause))),
                None => {}
            }
            if literal.holds {
                let broken = self.chosen(ask, literal.variant)?;
                if broken.is_some() {
                    return Ok(broken);
                }
            }
        }
        Ok(None)
    }

    /// Goes through the clauses that watch a literal, which is false now.
    fn visit(&mut self, literal: Literal) -> Result<Option<usize>, AllocError> {
        let mut next = self.watches.first(literal);
        self.watches.set_first(literal, None);
        let mut broken = None;
        for _ in 0..self.watches.len() {
            let Some(number) = next else {
                break;
            };
            let Some(watch) = self.watches.watch(number) else {
                break;
            };
            next = watch.next;
            let outcome = if broken.is_some() {
                Watched::Stays
            } else {
                self.look_at(number, watch.clause, literal)?
            };
            match outcome {
                Watched::Moved => {}
                Watched::Stays => self.watches.link(number, literal),
                Watched::Broken => {
                    self.watches.link(number, literal);
                    broken = Some(watch.clause);
                }
            }
        }
        Ok(broken)
    }

    /// Looks at a clause by the watch of a literal that is false now.
    fn look_at(
        &mut self,
        number: usize,
        clause: usize,
        literal: Literal,
    ) -> Result<Watched, AllocError> {
        if self.clauses.literal(clause, 0) == Some(literal) {
            self.clauses.swap(clause, 0, 1);
        }
        let Some(first) = self.clauses.literal(clause, 0) else {
            return Ok(Watched::Stays);
        };
        let held = self.trail.holds(first);
        if held == Some(true) {
            return Ok(Watched::Stays);
        }
        match self.other_place(clause) {
            Some(place) => {
                self.clauses.swap(clause, 1, place);
                match self.clauses.literal(clause, 1) {
                    Some(other) => self.watches.link(number, other),
                    None => {}
                }
                Ok(Watched::Moved)
            }
            None if held == Some(false) => Ok(Watched::Broken),
            None => {
                self.trail.assign(first, Some(Cause::Clause(clause)))?;
                Ok(Watched::Stays)
            }
        }
    }

    /// The place, behind the two that are watched, of a literal that is not false.
    fn other_place(&self, clause: usize) -> Option<usize> {
        for (place, literal) in self.clauses.of(clause).iter().enumerate() {
            if place >= 2 && self.trail.holds(*literal) != Some(false) {
                return Some(place);
            }
        }
        None
    }

    /// Draws what the choice of a variant excludes and asks for.
    fn chosen(&mut self, ask: Ask<'_>, variant: usize) -> Result<Option<Cause>, AllocError> {
        let name = ask.farm.name(variant);
        for other in ask.farm.first(name)..ask.farm.end(name) {
            if other != variant {
                let broken = self.exclude(ask, variant, other)?;
                if broken.is_some() {
                    return Ok(broken);
                }
            }
        }
        for other in ask.farm.excludes(variant) {
            let broken = self.exclude(ask, variant, *other)?;
            if broken.is_some() {
                return Ok(broken);
            }
        }
        for (place, entry) in ask.farm.entries_of(variant).iter().enumerate() {
            match self.ask_for(ask, variant, place, *entry)? {
                Some(clause) => return Ok(Some(Cause::Clause(clause))),
                None => {}
            }
        }
        Ok(None)
    }

    /// A variant cannot be beside one that was chosen.
    fn exclude(
        &mut self,
        ask: Ask<'_>,
        variant: usize,
        other: usize,
    ) -> Result<Option<Cause>, AllocError> {
        let cause = Some(Cause::Apart(other, variant));
        match self.value(other) {
            Value::Present => return Ok(cause),
            Value::Open if ask.is_usable(other) => {
                self.trail.assign(Literal::absent(other), cause)?;
            }
            Value::Open | Value::Absent => {}
        }
        Ok(None)
    }

    /// Adds the clause of an entry of a variant that was chosen.
    fn ask_for(
        &mut self,
        ask: Ask<'_>,
        variant: usize,
        place: usize,
        entry: usize,
    ) -> Result<Option<usize>, AllocError> {
        if self.meets_itself(ask, variant, place, entry) || !self.mark_added(entry)? {
            return Ok(None);
        }
        let besides = self.besides(ask, variant, place);
        for other in ask.farm.meets(entry) {
            if ask.farm.name(*other) != besides && self.is_open(ask, *other)? {
                self.clauses.push(Literal::present(*other))?;
            }
        }
        self.clauses.push(Literal::absent(variant))?;
        self.add_clause()
    }

    /// Tells whether a Pre-Depends entry of a variant is to be met before that is there.
    fn is_before(&self, ask: Ask<'_>, variant: usize, place: usize) -> bool {
        place < ask.farm.pre_depends(variant) && !ask.is_held(variant)
    }

    /// The name whose variants do not serve an entry of a variant: its own, where that is to be met
    /// before it is there.
    pub(crate) fn besides(&self, ask: Ask<'_>, variant: usize, place: usize) -> usize {
        if self.is_before(ask, variant, place) {
            ask.farm.name(variant)
        } else {
            usize::MAX
        }
    }

    /// Tells whether a variant meets an entry of its own; loosely also where another may have met
    /// that before.
    pub(crate) fn meets_itself(
        &self,
        ask: Ask<'_>,
        variant: usize,
        place: usize,
        entry: usize,
    ) -> bool {
        let may_meet = !self.is_before(ask, variant, place)
            || ask.is_loose && ask.server_before(variant, entry).is_some();
        may_meet && ask.farm.meets(entry).contains(&variant)
    }
}
