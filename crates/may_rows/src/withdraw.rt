//! A deconfigure and a remove under a may map.

ghost use Rattle.std.specs.Prelude.{◌≡◌, Bool, All, not, OnOk};
ghost use Rattle.std.specs.List.{fold, list_any};
ghost use Rattle.farm_model.specs.Traps.{first_trap};
ghost use Rattle.farm_model.specs.declared.types.Variant.{Variant};
ghost use Rattle.plan_model.specs.Common.{MayAbsent, is_surely_configured, is_surely_present, IsNameSet};
ghost use Rattle.may_rows.specs.Words.{AreWords, HasName, may_of};
ghost use Rattle.may_rows.specs.Walk.{Answers, IsOfLane};
ghost use Rattle.may_rows.specs.Configures.{slots_after};
ghost use Rattle.may_rows.specs.Withdraws.{name_withdrawn, deconfigure_risks_before, remove_risks_before};

use crate::instruction::LaneOf;
use crate::members::some_may_member;
use crate::needed::some_needs;
use crate::space::may_exceed;
use crate::state::MayHold;
use farm_universe::essential::IsEssential;
use farm_universe::{Trap, Universe};
use plan_reader::{Instruction, Lane};

impl MayHold {
    /// Takes what is configured of a name out of what is ready, and keeps it as the last.
    fn withdraw_name(&mut self, name: u32)
        requires { HasName self.old name }
        ensures { self.new ≡ name_withdrawn self.old name }
    {
        let here = self.here_word(name);
        let ready = self.ready_word(name);
        self.write(name, here, 0, ready);
    }
}

/// Withdraws the members.
fn withdraw_members(state: &mut MayHold, members: &[u32])
    requires { All (HasName state.old) members.now }
    ensures { state.new ≡ fold name_withdrawn state.old members.now }
{
    for place in 0..members.len() {
        state.withdraw_name(members[place]);
    }
}

/// Takes all that is present of the members away.
pub fn remove_members(universe: &Universe, state: &mut MayHold, members: &[u32])
    requires words { AreWords universe.now state.old }
    requires members { IsNameSet universe.now members.now }
    ensures words { AreWords universe.now state.new }
    ensures map { may_of state.new ≡ slots_after (λ s. MayAbsent) (may_of state.old) members.now }
{
    for place in 0..members.len() {
        state.put(universe, members[place], 0, 0, 0);
    }
}

/// Tells whether some member may not be configured.
fn some_not_configured(members: &[u32], state: &MayHold) -> bool
    ensures { result ≡ list_any (λ k. not (is_surely_configured ((may_of state.now).slots k)))
        members.now }
{
    members.iter().any(|member| !state.is_configured(*member))
}

/// Tells whether some member may be absent.
fn some_not_present(members: &[u32], state: &MayHold) -> bool
    ensures { result ≡ list_any (λ k. not (is_surely_present ((may_of state.now).slots k)))
        members.now }
{
    members.iter().any(|member| !state.is_present(*member))
}

/// The first trap of a deconfigure that is told before its members are withdrawn.
#[tactic(auto, unfolding(farm_model::specs::Traps::first_trap))]
fn deconfigure_risk(
    universe: &Universe,
    lane: &Lane,
    state: &MayHold,
    members: &[u32],
) -> Option<Trap>
    requires of_lane { IsOfLane universe.now lane.now state.now }
    ensures { result
        ≡ first_trap (deconfigure_risks_before lane.now (may_of state.now) members.now) }
{
    if may_exceed(lane.budget(), state, members.len() as u64) {
        return Some(Trap::OverBudget); // X14
    }
    if some_not_configured(members, state) {
        return Some(Trap::WrongState); // X6
    }
    None
}

/// The same of a remove.
#[tactic(auto, unfolding(farm_model::specs::Traps::first_trap))]
fn remove_risk(universe: &Universe, lane: &Lane, state: &MayHold, members: &[u32]) -> Option<Trap>
    requires of_lane { IsOfLane universe.now lane.now state.now }
    ensures { result
        ≡ first_trap (remove_risks_before universe.now lane.now (may_of state.now) members.now) }
{
    if may_exceed(lane.budget(), state, members.len() as u64) {
        return Some(Trap::OverBudget); // X14
    }
    if some_not_present(members, state) {
        return Some(Trap::WrongState); // X6
    }
    if some_may_member(universe, members, state, &IsEssential) {
        return Some(Trap::Essential); // X15
    }
    None
}

/// Deconfigures members, or tells the first trap that this may meet.
///
/// # Errors
///
/// The first trap that the deconfigure may meet. The members are then withdrawn, or the state is as
/// it was.
pub fn deconfigure(of: LaneOf<'_>, state: &mut MayHold, members: &[u32]) -> Result<(), Trap>
    requires members { IsNameSet of.universe.now members.now }
    requires of_lane { IsOfLane of.universe.now of.lane.now state.old }
    ensures answer { (in_it may_be : Variant → Bool) → Answers of.entry.universe.now
        of.entry.lane.now in_it may_be (may_of state.old) (Instruction.Deconfigure members.now)
        (may_of state.new) result }
    ensures of_lane { OnOk result (IsOfLane of.entry.universe.now of.entry.lane.now state.new) }
{
    let universe = of.universe;
    if let Some(trap) = deconfigure_risk(universe, of.lane, state, members) {
        return Err(trap);
    }
    withdraw_members(state, members);
    if some_needs(of, state, members) {
        return Err(Trap::StillNeeded); // X9
    }
    state.spend(members.len() as u64);
    Ok(())
}

/// Removes members, or tells the first trap that this may meet.
///
/// # Errors
///
/// The first trap that the remove may meet. The members are then withdrawn, or the state is as it
/// was.
pub fn remove(of: LaneOf<'_>, state: &mut MayHold, members: &[u32]) -> Result<(), Trap>
    requires members { IsNameSet of.universe.now members.now }
    requires of_lane { IsOfLane of.universe.now of.lane.now state.old }
    ensures answer { (in_it may_be : Variant → Bool) → Answers of.entry.universe.now
        of.entry.lane.now in_it may_be (may_of state.old) (Instruction.Remove members.now)
        (may_of state.new) result }
    ensures of_lane { OnOk result (IsOfLane of.entry.universe.now of.entry.lane.now state.new) }
{
    let universe = of.universe;
    if let Some(trap) = remove_risk(universe, of.lane, state, members) {
        return Err(trap);
    }
    withdraw_members(state, members);
    if some_needs(of, state, members) {
        return Err(Trap::StillNeeded); // X9
    }
    remove_members(universe, state, members);
    state.spend(members.len() as u64);
    Ok(())
}
