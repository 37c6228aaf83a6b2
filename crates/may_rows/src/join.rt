//! What a chroot may hold behind two branches.

ghost use Rattle.std.specs.Prelude.{◌≡◌, ◌<◌, ◌≤◌, ℕ, true, false, length, slice_index, IfOk};
ghost use Rattle.farm_model.specs.Packages.{names};
ghost use Rattle.farm_model.specs.Universe as model;
ghost use Rattle.plan_model.specs.Join as spec;
ghost use Rattle.plan_model.specs.May.{May};
ghost use Rattle.may_rows.specs.Joins.{either_last_word, joined_below, joined_rest};
ghost use Rattle.may_rows.specs.Words.{AreWords, may_of, with_slot};

use crate::state::MayHold;
use clause_kernel::same;
use farm_universe::Universe;
use std::alloc::{AllocError, Global};

/// How many names are compared at once: most hold the same behind both branches.
const PART: u32 = 64;

/// Tells whether two lists are known to have the same words from one name up to another.
fn same_between(words: &[u64], others: &[u64], from: u32, to: u32) -> bool
    requires order { from ≤ to }
    requires words { to ≤ length words.now }
    requires others { to ≤ length others.now }
    ensures { result ≡ true → (n : ℕ) → from ≤ n → n < to
        → slice_index words.now n ≡ slice_index others.now n }
{
    let (from, to) = (from as usize, to as usize);
    same(&words[from..to], &others[from..to])
}

/// What may have been configured last behind both branches, or nothing where that is not known
/// behind one.
fn either_last(last: u64, other: u64) -> u64
    ensures { result ≡ either_last_word last other }
{
    if last == 0 || other == 0 {
        0
    } else {
        last | other
    }
}

impl MayHold {
    /// A copy.
    pub fn copy(&self) -> Result<MayHold, AllocError>
        ensures { IfOk result (λ copy. copy ≡ self.now) }
    {
        Ok(MayHold {
            here: self.here.clone()?,
            ready: self.ready.clone()?,
            last: self.last.clone()?,
            both: self.both.clone()?,
            used: self.used,
            cost: self.cost,
            built: self.built.clone()?,
        })
    }

    /// Tells whether a name is in one phase at the ends of both branches.
    fn is_same_phase(&self, first: &MayHold, name: u32) -> bool
        ensures { (u : model.Universe) → AreWords u self.now → AreWords u first.now
            → result ≡ spec.is_same_phase ((may_of first.now).slots name)
            ((may_of self.now).slots name) }
    {
        (self.here_word(name) == 0) == (first.here_word(name) == 0)
            && (self.ready_word(name) == 0) == (first.ready_word(name) == 0)
    }

    /// Tells whether the same is known to be held, from one name up to another, as at the end of
    /// the first branch.
    fn holds_same(&self, universe: &Universe, first: &MayHold, from: u32, to: u32) -> bool
        requires words { AreWords universe.now self.now }
        requires first { AreWords universe.now first.now }
        requires order { from ≤ to }
        requires named { to ≤ names universe.now }
        ensures { result ≡ true → (n : ℕ) → from ≤ n → n < to
            → (may_of self.now).slots n ≡ (may_of first.now).slots n }
    {
        let _names = universe.names();
        same_between(&self.here, &first.here, from, to)
            && same_between(&self.ready, &first.ready, from, to)
            && same_between(&self.last, &first.last, from, to)
    }

    /// Tells whether some name from one up to another is in another phase here than at the end of
    /// the first branch.
    fn differs_between(&self, universe: &Universe, first: &MayHold, from: u32, to: u32) -> bool
        requires words { AreWords universe.now self.now }
        requires first { AreWords universe.now first.now }
        requires order { from ≤ to }
        requires named { to ≤ names universe.now }
        ensures some { result ≡ true
            → spec.phases_differ universe.now (may_of first.now) (may_of self.now) ≡ true }
        ensures none { result ≡ false → (n : ℕ) → from ≤ n → n < to
            → spec.is_same_phase ((may_of first.now).slots n) ((may_of self.now).slots n) ≡ true }
    {
        if self.holds_same(universe, first, from, to) {
            return false;
        }
        for name in from..to {
            if !self.is_same_phase(first, name) {
                return true;
            }
        }
        false
    }

    /// Tells whether some name is in another phase here than at the end of the first branch.
    pub fn phases_differ(&self, universe: &Universe, first: &MayHold) -> bool
        requires words { AreWords universe.now self.now }
        requires first { AreWords universe.now first.now }
        ensures { result
            ≡ spec.phases_differ universe.now (may_of first.now) (may_of self.now) }
    {
        let names = universe.names();
        let mut from = 0;
        while from < names {
            let to = from + PART.min(names - from);
            if self.differs_between(universe, first, from, to) {
                return true;
            }
            from = to;
        }
        false
    }

    /// Joins what may be held of a name, which is in one phase, with that at the end of the first
    /// branch.
    fn join_name(&mut self, universe: &Universe, first: &MayHold, name: u32)
        requires words { AreWords universe.now self.old }
        requires first { AreWords universe.now first.now }
        requires named { name < names universe.now }
        requires phase { spec.is_same_phase ((may_of first.now).slots name)
            ((may_of self.old).slots name) ≡ true }
        ensures words { AreWords universe.now self.new }
        ensures map { may_of self.new ≡ with_slot (may_of self.old) name
            (spec.joined_slot universe.now name ((may_of first.now).slots name)
            ((may_of self.old).slots name)) }
    {
        let here = first.here_word(name);
        let last = first.last_word(name);
        if here == self.here_word(name) && last == self.last_word(name) {
            return;
        }
        let ready = first.ready_word(name) | self.ready_word(name);
        let last = either_last(last, self.last_word(name));
        self.put(universe, name, here | self.here_word(name), ready, last);
    }
}

/// The recipes that both lists have built.
fn join_built(first: &[bool], built: &mut [bool])
    requires { length first.now ≡ length built.old }
    ensures { built.new ≡ spec.both_built first.now built.old }
{
    for recipe in 0..built.len() {
        built[recipe] = first[recipe] && built[recipe];
    }
}

impl MayHold {
    /// Joins what may be held, from one name up to another, with that at the end of the first
    /// branch. A name that holds the same there stays as it is.
    fn join_between(&mut self, universe: &Universe, first: &MayHold, from: u32, to: u32)
        requires words { AreWords universe.now self.old }
        requires first { AreWords universe.now first.now }
        requires order { from ≤ to }
        requires named { to ≤ names universe.now }
        requires phases { (n : ℕ) → from ≤ n → n < to
            → spec.is_same_phase ((may_of first.now).slots n) ((may_of self.old).slots n) ≡ true }
        ensures words { AreWords universe.now self.new }
        ensures map { (m : May) → may_of self.old ≡ joined_below universe.now (may_of first.now) from m
            → may_of self.new ≡ joined_below universe.now (may_of first.now) to m }
    {
        if self.holds_same(universe, first, from, to) {
            return;
        }
        for name in from..to {
            self.join_name(universe, first, name);
        }
    }

    /// Joins what may be held of each name with that at the end of the first branch.
    fn join_slots(&mut self, universe: &Universe, first: &MayHold)
        requires words { AreWords universe.now self.old }
        requires first { AreWords universe.now first.now }
        requires phases { spec.phases_differ universe.now (may_of first.now) (may_of self.old)
            ≡ false }
        ensures words { AreWords universe.now self.new }
        ensures map { may_of self.new ≡ joined_below universe.now (may_of first.now)
            (names universe.now) (may_of self.old) }
    {
        let names = universe.names();
        let mut from = 0;
        while from < names {
            let to = from + PART.min(names - from);
            self.join_between(universe, first, from, to);
            from = to;
        }
    }

    /// Takes the greater cost, and the recipes that both branches have built.
    fn join_rest(&mut self, first: &MayHold)
        requires { length first.now.built ≡ length self.old.built }
        ensures { self.new ≡ joined_rest first.now self.old }
    {
        self.cost = first.cost.max(self.cost);
        join_built(&first.built, &mut self.built);
    }

    /// Joins what may be held at the end of the second branch with that at the end of the first
    /// one: what either may hold, the greater cost, and the recipes that both have built.
    pub fn join(&mut self, universe: &Universe, first: &MayHold)
        requires words { AreWords universe.now self.old }
        requires first { AreWords universe.now first.now }
        requires phases { spec.phases_differ universe.now (may_of first.now) (may_of self.old)
            ≡ false }
        ensures words { AreWords universe.now self.new }
        ensures map { may_of self.new
            ≡ spec.joined_may universe.now (may_of first.now) (may_of self.old) }
    {
        self.join_slots(universe, first);
        self.join_rest(first);
    }
}
