//! The variants that a chroot may hold, as lists.

ghost use Rattle.std.specs.Prelude.{◌≡◌, ◌++◌, All, IfOk, OnOk};
ghost use Rattle.clause_kernel.specs.Rows.{word_has};
ghost use Rattle.farm_model.specs.Sound.{IsKnown};
ghost use Rattle.may_rows.specs.Words.{may_of};
ghost use Rattle.explain_reasons.specs.Listed as spec;
ghost use Rattle.explain_reasons.specs.Listed.{Lists};

use crate::place::Place;
use crate::types::Pushed;
use farm_universe::{Universe, Variant};
use may_rows::{MayHold, has_bit, variant_count};
use std::alloc::AllocError;

/// A phase of a name: something of it is there, is unpacked and not configured, or is configured.
#[derive(Clone, Copy)]
pub enum Phase {
    Present,
    Unpacked,
    Configured,
}

impl Phase {
    /// Tells whether a name is surely in the phase.
    pub fn holds(self, state: &MayHold, name: u32) -> bool
        ensures { result ≡ spec.is_in self ((may_of state.now).slots name) }
    {
        match self {
            Phase::Present => state.is_present(name),
            Phase::Unpacked => state.is_unpacked(name),
            Phase::Configured => state.is_configured(name),
        }
    }
}

/// Puts an item behind others, where a test passes.
pub fn push_if<T: Drop>(found: &mut Vec<T>, test: bool, item: T) -> Pushed
    ensures { OnOk result (found.new.items ≡ found.old.items ++ spec.one_if test item) }
{
    if test {
        found.push(item)?;
    }
    Ok(())
}

/// Puts the variants of a set of a name behind others, from the lowest bit up.
#[tactic(auto, unfolding(crate::specs::Listed::variants_in), using(crate::proofs::HeldLists::one_known))]
pub fn push_variants(held: &mut Vec<Variant>, universe: &Universe, name: u32, set: u64) -> Pushed
    ensures held { OnOk result (held.new.items
        ≡ held.old.items ++ spec.variants_in universe.now name (word_has set)) }
    ensures known { OnOk result (All (IsKnown universe.now) held.old.items
        → All (IsKnown universe.now) held.new.items) }
{
    for bit in 0..variant_count(universe, name) {
        push_if(held, has_bit(set, bit), Variant { name, bit })?;
    }
    Ok(())
}

impl Place<'_> {
    /// Puts the variants that a name may hold behind others, where it is in a phase.
    #[tactic(auto, unfolding(crate::specs::Listed::held_in), using(crate::proofs::HeldLists::held_is))]
    fn push_held(&self, state: &MayHold, phase: Phase, name: u32, held: &mut Vec<Variant>) -> Pushed
        ensures held { OnOk result (held.new.items ≡ held.old.items
            ++ spec.held_in self.now.universe.now phase name ((may_of state.now).slots name)) }
        ensures known { OnOk result (All (IsKnown self.now.universe.now) held.old.items
            → All (IsKnown self.now.universe.now) held.new.items) }
    {
        if phase.holds(state, name) {
            push_variants(held, self.universe, name, state.here_word(name))
        } else {
            Ok(())
        }
    }

    /// The variants that the names of a phase may hold.
    #[tactic(auto, unfolding(crate::specs::Listed::held_names), using(crate::proofs::HeldLists::none_known))]
    pub fn held_names(&self, state: &MayHold, phase: Phase) -> Result<Vec<Variant>, AllocError>
        ensures held { Lists result (spec.held_names self.now.universe.now phase (may_of
            state.now)) }
        ensures known { IfOk result (λ held. All (IsKnown self.now.universe.now) held.items) }
    {
        let mut held = Vec::new(self.alloc);
        for name in 0..self.universe.names() {
            self.push_held(state, phase, name, &mut held)?;
        }
        Ok(held)
    }

    /// The variants that members may hold.
    #[tactic(auto, unfolding(crate::specs::Listed::held_members), using(crate::proofs::HeldLists::none_known))]
    pub fn held_members(&self, members: &[u32]) -> Result<Vec<Variant>, AllocError>
        ensures held { Lists result (spec.held_members self.now.universe.now members.now (may_of
            self.now.state.now)) }
        ensures known { IfOk result (λ held. All (IsKnown self.now.universe.now) held.items) }
    {
        let mut held = Vec::new(self.alloc);
        for place in 0..members.len() {
            self.push_held(self.state, Phase::Present, members[place], &mut held)?;
        }
        Ok(held)
    }
}
