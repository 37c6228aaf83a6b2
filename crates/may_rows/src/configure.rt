//! A configure under a may map.

ghost use Rattle.std.specs.Prelude.{◌≡◌, ◌&&◌, ◌==◌, Bool, All, not, OnOk};
ghost use Rattle.std.specs.List.{fold, list_any};
ghost use Rattle.farm_model.specs.Common.{unmet, first_trap};
ghost use Rattle.farm_model.specs.declared.types.Variant.{Variant};
ghost use Rattle.farm_model.specs.Packages as packages;
ghost use Rattle.plan_model.specs.May as may;
ghost use Rattle.plan_model.specs.Common.{may_be_configured, IsNameSet};
ghost use Rattle.may_rows.specs.Words.{AreWords, HasName, may_of};
ghost use Rattle.may_rows.specs.Walk.{Answers, IsOfLane};
ghost use Rattle.may_rows.specs.Configures.{name_configured, risks_before, risks_after, slots_after};

use crate::entries::{misses_depends, misses_pre_depends};
use crate::instruction::LaneOf;
use crate::members::some_may_member;
use crate::space::may_exceed;
use crate::state::MayHold;
use farm_universe::relations::VariantTest;
use farm_universe::{Trap, Universe, Variant};
use plan_reader::{Instruction, Lane};
use sat_rows::Tables;

/// The variants with a Pre-Depends entry that may not be met.
#[derive(Drop)]
struct MissesPreDepends<'a> {
    tables: &'a Tables,
    state: &'a MayHold,
}

impl VariantTest for MissesPreDepends<'_> {
    ghost fits = { λ u t. (t.tables.now ≡ u) × AreWords u t.state.now };

    ghost test = { λ u t v.
        unmet (may.surely_met u (may_of t.state.now)) (packages.pre_depends u v) };

    fn passes(&self, universe: &Universe, variant: Variant) -> bool {
        misses_pre_depends(universe, self.tables, self.state, variant)
    }
}

/// The variants with a Depends entry that may not be met.
#[derive(Drop)]
struct MissesDepends<'a> {
    tables: &'a Tables,
    state: &'a MayHold,
}

impl VariantTest for MissesDepends<'_> {
    ghost fits = { λ u t. (t.tables.now ≡ u) × AreWords u t.state.now };

    ghost test = { λ u t v.
        unmet (may.surely_met u (may_of t.state.now)) (packages.depends u v) };

    fn passes(&self, universe: &Universe, variant: Variant) -> bool {
        misses_depends(universe, self.tables, self.state, variant)
    }
}

/// The variants that a present one of another name may break (Debian Policy 7.3).
#[derive(Drop)]
struct MayBeBroken<'a> {
    tables: &'a Tables,
    state: &'a MayHold,
}

impl VariantTest for MayBeBroken<'_> {
    ghost fits = { λ u t. (t.tables.now ≡ u) × AreWords u t.state.now };

    ghost test = { λ u t v. may.some_name u (may_of t.state.now)
        (λ n s. not (n == v.name)
        && may.may_hold u n (λ b. packages.breaks u (packages.variant n b) v) s) };

    fn passes(&self, universe: &Universe, variant: Variant) -> bool {
        let state = self.state;
        self.tables.is_broken_by_some(variant, &state.here)
    }
}

/// Tells whether some member may not be unpacked.
fn some_not_unpacked(members: &[u32], state: &MayHold) -> bool
    ensures { result ≡ list_any
        (λ k. not (may.is_surely_unpacked ((may_of state.now).slots k))) members.now }
{
    members.iter().any(|member| !state.is_unpacked(*member))
}

/// The first trap among those that are told before the members are configured.
#[tactic(auto, unfolding(farm_model::specs::Traps::first_trap))]
fn risk_before(
    universe: &Universe,
    tables: &Tables,
    lane: &Lane,
    state: &MayHold,
    members: &[u32],
) -> Option<Trap>
    requires same { tables.now ≡ universe.now }
    requires of_lane { IsOfLane universe.now lane.now state.now }
    ensures { result
        ≡ first_trap (risks_before universe.now lane.now (may_of state.now) members.now) }
{
    if may_exceed(lane.budget(), state, members.len() as u64) {
        return Some(Trap::OverBudget); // X14
    }
    if some_not_unpacked(members, state) {
        return Some(Trap::WrongState); // X6
    }
    if some_may_member(
        universe,
        members,
        state,
        &MissesPreDepends { tables, state },
    ) {
        return Some(Trap::PreDepends); // X2
    }
    None
}

/// The first trap among those that are told by the words where the members are configured.
#[tactic(auto, unfolding(farm_model::specs::Traps::first_trap))]
fn risk_after(
    universe: &Universe,
    tables: &Tables,
    state: &MayHold,
    members: &[u32],
) -> Option<Trap>
    requires same { tables.now ≡ universe.now }
    requires words { AreWords universe.now state.now }
    ensures { result ≡ first_trap (risks_after universe.now (may_of state.now) members.now) }
{
    if some_may_member(universe, members, state, &MissesDepends { tables, state }) {
        return Some(Trap::Depends); // X7
    }
    if some_may_member(universe, members, state, &MayBeBroken { tables, state }) {
        return Some(Trap::Broken); // X8
    }
    None
}

impl MayHold {
    /// Configures what is present of a name.
    fn configure_name(&mut self, name: u32)
        requires { HasName self.old name }
        ensures { self.new ≡ name_configured self.old name }
    {
        let here = self.here_word(name);
        self.write(name, here, here, here);
    }
}

/// Configures the words of the members.
fn configure_each(state: &mut MayHold, members: &[u32])
    requires { All (HasName state.old) members.now }
    ensures { state.new ≡ fold name_configured state.old members.now }
{
    for place in 0..members.len() {
        state.configure_name(members[place]);
    }
}

/// Configures members, whatever this meets.
pub fn configure_members(_universe: &Universe, state: &mut MayHold, members: &[u32])
    requires words { AreWords _universe.now state.old }
    requires members { IsNameSet _universe.now members.now }
    ensures words { AreWords _universe.now state.new }
    ensures map { may_of state.new ≡ slots_after may_be_configured (may_of state.old) members.now }
{
    configure_each(state, members);
}

/// Configures members together, or tells the first trap that this may meet.
///
/// # Errors
///
/// The first trap that the configure may meet. The members are then configured, or the state is as
/// it was.
pub fn configure(of: LaneOf<'_>, state: &mut MayHold, members: &[u32]) -> Result<(), Trap>
    requires members { IsNameSet of.universe.now members.now }
    requires of_lane { IsOfLane of.universe.now of.lane.now state.old }
    ensures answer { (in_it may_be : Variant → Bool) → Answers of.entry.universe.now
        of.entry.lane.now in_it may_be (may_of state.old) (Instruction.Configure members.now)
        (may_of state.new) result }
    ensures of_lane { OnOk result (IsOfLane of.entry.universe.now of.entry.lane.now state.new) }
{
    let universe = of.universe;
    if let Some(trap) = risk_before(universe, of.tables, of.lane, state, members) {
        return Err(trap);
    }
    configure_members(universe, state, members);
    if let Some(trap) = risk_after(universe, of.tables, state, members) {
        return Err(trap);
    }
    state.spend(members.len() as u64);
    Ok(())
}
