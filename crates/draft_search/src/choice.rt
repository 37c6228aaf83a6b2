//! What is chosen next.

use crate::ask::Ask;
use crate::search::Search;
use crate::trail::Value;
use std::alloc::AllocError;

/// The best of those that were looked at, if none of them is chosen already.
#[derive(Clone, Copy, Drop)]
struct Best {
    is_met: bool,
    found: Option<usize>,
    rank: (bool, usize),
}

impl Search {
    /// Looks at a further candidate. One of the same rank as an earlier one is no better.
    fn weigh(&mut self, ask: Ask<'_>, best: Best, variant: usize) -> Result<Best, AllocError> {
        match self.value(variant) {
            Value::Present => Ok(Best {
                is_met: true,
                ..best
            }),
            Value::Absent => Ok(best),
            Value::Open => {
                if !self.is_open(ask, variant)? {
                    return Ok(best);
                }
                let rank = ask.rank(variant);
                if best.found.is_some() && rank >= best.rank {
                    return Ok(best);
                }
                Ok(Best {
                    is_met: best.is_met,
                    found: Some(variant),
                    rank,
                })
            }
        }
    }

    /// The best candidate for an entry, but for those of one name; none where one is chosen.
    fn candidate(
        &mut self,
        ask: Ask<'_>,
        entry: usize,
        besides: usize,
    ) -> Result<Option<usize>, AllocError> {
        let mut best = no_best();
        for variant in ask.farm.meets(entry) {
            if ask.farm.name(*variant) != besides {
                best = self.weigh(ask, best, *variant)?;
            }
            if best.is_met {
                return Ok(None);
            }
        }
        Ok(best.found)
    }

    /// The version in which a package is kept: its own, or else the best.
    fn kept(&mut self, ask: Ask<'_>, variant: usize) -> Result<Option<usize>, AllocError> {
        let name = ask.farm.name(variant);
        let mut best = no_best();
        for other in ask.farm.first(name)..ask.farm.end(name) {
            best = self.weigh(ask, best, other)?;
        }
        if best.is_met {
            return Ok(None);
        }
        if self.value(variant) == Value::Open && !self.is_shut(variant) && ask.is_usable(variant) {
            return Ok(Some(variant));
        }
        Ok(best.found)
    }

    /// The next variant for what is kept and needed.
    fn first_choice(&mut self, ask: Ask<'_>) -> Result<Option<usize>, AllocError> {
        for place in self.asked..ask.keep.len() {
            match ask.keep.get(place) {
                Some(variant) => {
                    let found = self.kept(ask, *variant)?;
                    if found.is_some() {
                        return Ok(found);
                    }
                }
                None => {}
            }
            self.asked = place.saturating_add(1);
        }
        for entry in ask.needs {
            let found = self.candidate(ask, *entry, usize::MAX)?;
            if found.is_some() {
                return Ok(found);
            }
        }
        Ok(None)
    }

    /// The next variant for an entry of one that is chosen.
    fn entry_choice(&mut self, ask: Ask<'_>, variant: usize) -> Result<Option<usize>, AllocError> {
        for (place, entry) in ask.farm.entries_of(variant).iter().enumerate() {
            if !self.meets_itself(ask, variant, place, *entry) {
                let besides = self.besides(ask, variant, place);
                let found = self.candidate(ask, *entry, besides)?;
                if found.is_some() {
                    return Ok(found);
                }
            }
        }
        Ok(None)
    }

    /// The next variant for what those that are chosen need.
    fn later_choice(&mut self, ask: Ask<'_>) -> Result<Option<usize>, AllocError> {
        for place in self.scanned..self.trail.len() {
            match self.trail.literal(place) {
                Some(literal) => {
                    if literal.holds {
                        let found = self.entry_choice(ask, literal.variant)?;
                        if found.is_some() {
                            return Ok(found);
                        }
                    }
                }
                None => {}
            }
            self.scanned = place.saturating_add(1);
        }
        Ok(None)
    }

    /// The next variant for a further clause.
    fn last_choice(&mut self, ask: Ask<'_>) -> Result<Option<usize>, AllocError> {
        for number in 0..ask.more.len() {
            if !self.is_held_by_some(ask, number) {
                for literal in ask.more.of(number) {
                    if literal.holds
                        && self.value(literal.variant) == Value::Open
                        && self.is_open(ask, literal.variant)?
                    {
                        return Ok(Some(literal.variant));
                    }
                }
            }
        }
        Ok(None)
    }

    /// Tells whether a literal of a further clause holds.
    fn is_held_by_some(&self, ask: Ask<'_>, number: usize) -> bool {
        for literal in ask.more.of(number) {
            if self.trail.holds(*literal) == Some(true) {
                return true;
            }
        }
        false
    }

    /// The variant that is chosen next: for what is kept, then for what is needed, then for what
    /// those that are chosen need. None where nothing is left to choose.
    pub(crate) fn choice(&mut self, ask: Ask<'_>) -> Result<Option<usize>, AllocError> {
        let found = self.first_choice(ask)?;
        if found.is_some() {
            return Ok(found);
        }
        let found = self.later_choice(ask)?;
        if found.is_some() {
            return Ok(found);
        }
        self.last_choice(ask)
    }
}

fn no_best() -> Best {
    Best {
        is_met: false,
        found: None,
        rank: (false, 0),
    }
}
