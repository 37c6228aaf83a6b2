//! Why an instruction may meet a trap, by what it is.

ghost use Rattle.std.specs.Prelude.{◌≡◌, ◌<◌, ◌++◌, All, length, IfOk, OnOk};
ghost use Rattle.clause_kernel.specs.Rows.{word_has};
ghost use Rattle.farm_model.specs.Packages as packages;
ghost use Rattle.farm_model.specs.Sound.{IsKnown};
ghost use Rattle.farm_model.specs.declared.types.Trap.{Trap};
ghost use Rattle.plan_model.specs.Common.{greatest_cost, IsNameSet};
ghost use Rattle.may_rows.specs.Words.{may_of};
ghost use Rattle.explain_reasons.specs.Listed.{IsPlaceOfLane, Lists, of_place};
ghost use Rattle.explain_reasons.specs.Reasons as spec;

use crate::held::{Phase, push_if, push_variants};
use crate::listed::{Asked, Asking, Exclusion};
use crate::place::Place;
use crate::types::{Field, Found, Pushed, Reason};
use farm_universe::{Trap, Universe, Variant};
use may_rows::{configure_members, greatest_size, remove_members};
use std::alloc::AllocError;

/// What an unpack of a variant of a set costs at most.
pub fn unpack_cost(universe: &Universe, name: u32, set: u64) -> u64
    ensures { result ≡ greatest_cost universe.now name (word_has set) }
{
    1 + greatest_size(universe, name, set) / 1024
}

impl Place<'_> {
    /// Why an unpack of a variant of a set may meet a trap.
    #[tactic(auto, using(crate::proofs::HeldLists::none_known))]
    pub fn list_unpack(&self, name: u32, set: u64, trap: Trap) -> Found
        requires place { IsPlaceOfLane self.now }
        requires named { name < packages.names self.now.universe.now }
        ensures { Lists result (of_place self.now spec.unpack_reasons name (word_has set) trap) }
    {
        let mut variants = Vec::new(self.alloc);
        push_variants(&mut variants, self.universe, name, set)?;
        match trap {
            Trap::OverBudget => self.list_over_budget(unpack_cost(self.universe, name, set)),
            Trap::PreDepends => {
                let mut without = self.state.copy()?;
                remove_members(self.universe, &mut without, &[name]);
                self.list_each(Asked::Ahead(&without), &variants)
            }
            Trap::Conflict => {
                let others = self.held_names(self.state, Phase::Present)?;
                self.list_each(Asked::Excluded(Exclusion::Conflict, &others), &variants)
            }
            Trap::BreaksOther => {
                let others = self.held_names(self.state, Phase::Configured)?;
                self.list_each(Asked::Excluded(Exclusion::Breaks, &others), &variants)
            }
            Trap::Full => self.list_too_full(greatest_size(self.universe, name, set)),
            _ => Ok(Vec::new(self.alloc)),
        }
    }

    /// Why a configure of members may meet a trap.
    pub fn list_configure(&self, members: &[u32], trap: Trap) -> Found
        requires place { IsPlaceOfLane self.now }
        requires members { IsNameSet self.now.universe.now members.now }
        ensures { Lists result (of_place self.now spec.configure_reasons members.now trap) }
    {
        let held = self.held_members(members)?;
        match trap {
            Trap::OverBudget => self.list_over_budget(members.len() as u64),
            Trap::WrongState => self.list_wrong_state(members, Phase::Unpacked),
            Trap::PreDepends => {
                self.list_each(Asked::Unmet(Field::PreDepends, self.state), &held)
            }
            Trap::Depends => {
                let mut together = self.state.copy()?;
                configure_members(self.universe, &mut together, members);
                self.list_each(Asked::Unmet(Field::Depends, &together), &held)
            }
            Trap::Broken => {
                let others = self.held_names(self.state, Phase::Present)?;
                self.list_each(Asked::Excluded(Exclusion::Broken, &others), &held)
            }
            _ => Ok(Vec::new(self.alloc)),
        }
    }

    /// What members in a phase may hold.
    fn of_members(&self, members: &[u32], phase: Phase) -> Result<Vec<Variant>, AllocError>
        ensures held { Lists result (spec.of_members self.now.universe.now phase members.now
            (may_of self.now.state.now)) }
        ensures known { IfOk result (λ held. All (IsKnown self.now.universe.now) held.items) }
    {
        let held = self.held_names(self.state, phase)?;
        let held = held.iter().copied().filter(|it| members.contains(&it.name));
        held.collect(self.alloc)
    }

    /// The entries for which a member in the one phase may be needed, of what is held in the other
    /// phase outside the set.
    pub fn list_needing(&self, members: &[u32], owner: Phase, by: Phase) -> Found
        requires place { IsPlaceOfLane self.now }
        requires members { IsNameSet self.now.universe.now members.now }
        ensures { Lists result (spec.needing self.now.universe.now owner by members.now (may_of
            self.now.state.now)) }
    {
        let these = self.of_members(members, by)?;
        let mut outside = self.state.copy()?;
        remove_members(self.universe, &mut outside, members);
        let owners = self.held_names(&outside, owner)?;
        self.list_each(Asked::Needed(&these, &outside), &owners)
    }

    /// Why a deconfigure of members may meet a trap, which are to be configured, or a remove, which
    /// are to be present.
    pub fn list_withdraw(&self, phase: Phase, members: &[u32], trap: Trap) -> Found
        requires place { IsPlaceOfLane self.now }
        requires members { IsNameSet self.now.universe.now members.now }
        ensures { Lists result (of_place self.now spec.withdraw_reasons phase members.now trap) }
    {
        match trap {
            Trap::OverBudget => self.list_over_budget(members.len() as u64),
            Trap::WrongState => self.list_wrong_state(members, phase),
            Trap::Essential => match phase {
                Phase::Present => {
                    let held = self.held_members(members)?;
                    self.list_each(Asked::Essential, &held)
                }
                Phase::Unpacked | Phase::Configured => Ok(Vec::new(self.alloc)),
            },
            Trap::StillNeeded => {
                self.list_needing(members, Phase::Configured, Phase::Configured)
            }
            _ => Ok(Vec::new(self.alloc)),
        }
    }

    /// Puts it behind others that a name is unpacked alone, and which entries of what it may hold
    /// may not be met.
    fn push_unsettled(&self, name: u32, found: &mut Vec<Reason>) -> Pushed
        requires { IsPlaceOfLane self.now }
        ensures { OnOk result (found.new.items ≡ found.old.items
            ++ spec.unsettled self.now.universe.now (may_of self.now.state.now) name) }
    {
        push_if(found, self.state.is_unpacked(name), Reason::Unsettled(name))?;
        let held = self.held_members(&[name])?;
        let mut unmet = self.list_each(Asked::Unsettled(self.state), &held)?;
        found.append(&mut unmet)?;
        Ok(())
    }

    /// Why a build of a recipe may meet a trap.
    pub fn list_build(&self, recipe: u32, trap: Trap) -> Found
        requires place { IsPlaceOfLane self.now }
        requires known { recipe < length self.now.universe.now.recipes }
        ensures { Lists result (of_place self.now spec.build_reasons recipe trap) }
    {
        let costs = self.universe.recipe(recipe);
        match trap {
            Trap::OverBudget => self.list_over_budget(costs.steps()),
            Trap::Unsettled => {
                let mut found = Vec::new(self.alloc);
                for name in 0..self.universe.names() {
                    self.push_unsettled(name, &mut found)?;
                }
                Ok(found)
            }
            Trap::BuildDepends => {
                let mut found = Vec::new(self.alloc);
                self.push_entries(self.state, Asking::Needs(recipe), &mut found)?;
                Ok(found)
            }
            Trap::BuildConflict => {
                let held = self.held_names(self.state, Phase::Present)?;
                self.list_each(Asked::Clash(recipe), &held)
            }
            Trap::Full => self.list_too_full(costs.scratch()),
            _ => Ok(Vec::new(self.alloc)),
        }
    }

    /// Why a publish of a recipe may meet a trap.
    pub fn list_publish(&self, recipe: u32, trap: Trap) -> Found
        requires { IsPlaceOfLane self.now }
        ensures { Lists result (of_place self.now spec.publish_reasons recipe trap) }
    {
        match trap {
            Trap::OverBudget => {
                self.list_over_budget(self.universe.outputs(recipe).len() as u64)
            }
            Trap::NotBuilt => {
                self.list_if(!self.state.was_built(recipe), Reason::NotBuilt(recipe))
            }
            _ => Ok(Vec::new(self.alloc)),
        }
    }
}
