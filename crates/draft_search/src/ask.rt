//! What is asked of a search.

use crate::clauses::Clauses;
use crate::{FarmNumbers, at};

/// What a chroot is to hold, as it is asked: who may be in it, and what it is to meet. Asked
/// loosely it is to meet only what holds at each build, however the chroot has come to it.
#[derive(Clone, Copy)]
pub struct Ask<'a> {
    pub farm: &'a FarmNumbers,
    /// By name: the variant that the chroot holds, configured; another number where it holds none.
    pub held: &'a [usize],
    /// By recipe: whether what it gives may be chosen, and how far away that is.
    pub built: &'a [bool],
    pub turn: &'a [usize],
    /// By recipe: how many of its outputs the lane knows; nothing where there is no lane yet.
    pub known: Option<&'a [usize]>,
    /// What is kept if it can be, in its version or else in another one.
    pub keep: &'a [usize],
    /// The entries that are to be met, and the variants that must not be there.
    pub needs: &'a [usize],
    pub clashes: &'a [usize],
    /// Further clauses.
    pub more: &'a Clauses,
    pub is_loose: bool,
}

impl Ask<'_> {
    /// Tells whether the chroot holds a variant.
    pub fn is_held(&self, variant: usize) -> bool {
        at(self.held, self.farm.name(variant), usize::MAX) == variant
    }

    /// Tells whether the archive has a variant by then, or the chroot holds it.
    pub fn is_usable(&self, variant: usize) -> bool {
        let facts = self.farm.facts(variant);
        if facts.is_initial || self.is_held(variant) {
            return true;
        }
        match facts.giver {
            Some((recipe, _)) => at(self.built, recipe, false),
            None => false,
        }
    }

    /// The same, asked loosely.
    pub fn loosely(self) -> Self {
        Ask {
            is_loose: true,
            ..self
        }
    }

    /// Tells whether an Essential package may leave the chroot: it is not there, or can give way to
    /// a version that is not Essential.
    pub(crate) fn may_go(&self, variant: usize) -> bool {
        !self.is_held(variant) || self.is_loose && self.version_that_may_go(variant).is_some()
    }

    /// The best version of a package that is not Essential and can be had.
    pub(crate) fn version_that_may_go(&self, variant: usize) -> Option<usize> {
        let name = self.farm.name(variant);
        let mut best = None;
        for other in self.farm.first(name)..self.farm.end(name) {
            if !self.farm.facts(other).is_essential {
                best = self.better(best, other);
            }
        }
        best
    }

    /// The best one that serves an entry of a variant, can be had and is of another name.
    pub(crate) fn server_before(&self, variant: usize, entry: usize) -> Option<usize> {
        let name = self.farm.name(variant);
        let mut best = None;
        for other in self.farm.meets(entry) {
            if self.farm.name(*other) != name {
                best = self.better(best, *other);
            }
        }
        best
    }

    /// The better one of two, of which the second counts where it can be had.
    fn better(&self, best: Option<usize>, other: usize) -> Option<usize> {
        if !self.is_usable(other) {
            return best;
        }
        match best {
            Some(variant) if self.rank(variant) <= self.rank(other) => best,
            _ => Some(other),
        }
    }

    /// How far away a variant is: the lower, the better. An Essential package that is not in the
    /// chroot comes last, since it never leaves it.
    pub(crate) fn rank(&self, variant: usize) -> (bool, usize) {
        let facts = self.farm.facts(variant);
        let is_held = self.is_held(variant);
        let far = match self.known {
            None => self.turn_of(facts.giver, false),
            Some(_) if is_held => 0,
            Some(known) => self.lane_rank(known, facts.is_initial, facts.giver),
        };
        (facts.is_essential && !is_held, far)
    }

    /// How far away what a recipe gives is, 0 for what no recipe gives.
    fn turn_of(&self, giver: Option<(usize, usize)>, is_by_output: bool) -> usize {
        match giver {
            Some((recipe, place)) => {
                let turn = at(self.turn, recipe, 0);
                if is_by_output {
                    turn.saturating_add(place)
                } else {
                    turn
                }
            }
            None => 0,
        }
    }

    fn lane_rank(&self, known: &[usize], is_initial: bool, giver: Option<(usize, usize)>) -> usize {
        if is_initial {
            return 1;
        }
        match giver {
            Some((recipe, place)) if at(known, recipe, 0) > place => 1,
            _ => self.turn_of(giver, true).saturating_add(2),
        }
    }
}
