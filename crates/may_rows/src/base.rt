//! What a base chroot holds.

ghost use Rattle.std.specs.Prelude.{◌≡◌, ◌<◌, ◌==◌, ◌^◌, ℕ, Bool, false, IfOk, length, replicate, if◌then◌else◌};
ghost use Rattle.farm_model.specs.Sound.{IsKnown};
ghost use Rattle.plan_model.specs.Common.{May, MayAbsent, MayConfigured, is_surely_present, may_base, Lane, no_builds};
ghost use Rattle.may_rows.specs.Words.{Words, AreWords, may_of, with_slot};

use crate::state::MayHold;
use farm_universe::{Universe, Variant};
use std::alloc::{AllocError, Global};

/// The set of one variant.
fn single(bit: u32) -> u64
    requires { bit < 64 }
    ensures { result ≡ 2 ^ bit }
{
    1 << bit
}

fn zeros(alloc: Global, count: usize) -> Result<Vec<u64>, AllocError>
    ensures { IfOk result (λ words. words.items ≡ replicate count 0) }
{
    Ok(Vec::from_elem(alloc, 0, count)?)
}

fn unbuilt(alloc: Global, count: usize) -> Result<Vec<bool>, AllocError>
    ensures { IfOk result (λ built. built.items ≡ replicate count false) }
{
    Ok(Vec::from_elem(alloc, false, count)?)
}

impl MayHold {
    /// Holds nothing.
    fn empty(alloc: Global, universe: &Universe) -> Result<MayHold, AllocError>
        ensures words { IfOk result (AreWords universe.now) }
        ensures slots { IfOk result (λ w. (n : ℕ) → (may_of w).slots n ≡ MayAbsent) }
        ensures cost { IfOk result (λ w. w.cost ≡ 0) }
        ensures built { IfOk result (λ w. w.built ≡ no_builds universe.now) }
    {
        let names = universe.names() as usize;
        let here = zeros(alloc, names)?;
        let ready = zeros(alloc, names)?;
        let last = zeros(alloc, names)?;
        let both = zeros(alloc, names)?;
        let built = unbuilt(alloc, universe.recipes() as usize)?;
        Ok(MayHold {
            here,
            ready,
            last,
            both,
            used: 0,
            cost: 0,
            built,
        })
    }

    /// Holds this variant configured, unless it holds one of the name.
    fn add(&mut self, universe: &Universe, variant: Variant)
        requires words { AreWords universe.now self.old }
        requires known { IsKnown universe.now variant }
        ensures words { AreWords universe.now self.new }
        ensures map { may_of self.new
            ≡ (if is_surely_present ((may_of self.old).slots variant.name) then may_of self.old
            else with_slot (may_of self.old) variant.name (MayConfigured (λ b. b == variant.bit))) }
    {
        let _names = universe.names();
        if !self.is_present(variant.name) {
            let word = single(variant.bit);
            self.put(universe, variant.name, word, word, word);
        }
    }

    /// Holds just what a base chroot holds, each configured.
    pub fn of_base(alloc: Global, universe: &Universe, number: u32) -> Result<MayHold, AllocError>
        requires { number < length universe.now.bases }
        ensures words { IfOk result (AreWords universe.now) }
        ensures map { IfOk result (λ w. (of : Lane) → of.base ≡ number
            → may_of w ≡ may_base universe.now of) }
    {
        let _names = universe.names();
        let packages = universe.base(number).packages();
        let mut state = MayHold::empty(alloc, universe)?;
        for place in 0..packages.len() {
            state.add(universe, packages[place]);
        }
        Ok(state)
    }
}
