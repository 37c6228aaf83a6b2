//! A build and a publish under a may map.

ghost use Rattle.std.specs.Prelude.{◌≡◌, ◌<◌, Bool, not, length, OnOk};
ghost use Rattle.farm_model.specs.Common.{unmet, first_trap};
ghost use Rattle.farm_model.specs.declared.types.Variant.{Variant};
ghost use Rattle.farm_model.specs.Packages as packages;
ghost use Rattle.plan_model.specs.May as may;
ghost use Rattle.plan_model.specs.Common.{build_risks, publish_risks, was_built};
ghost use Rattle.sat_rows.specs.Rows.{nth_entry};
ghost use Rattle.may_rows.specs.Words.{AreWords, may_of};
ghost use Rattle.may_rows.specs.Met.{AreDoubts};
ghost use Rattle.may_rows.specs.Walk.{Answers, IsOfLane};

use crate::doubts::Doubts;
use crate::instruction::LaneOf;
use crate::numbers::{NumberTest, some_number};
use crate::settled::may_be_unsettled;
use crate::space::{may_exceed, may_overflow};
use crate::state::MayHold;
use farm_universe::{Trap, Universe};
use plan_reader::{Instruction, Lane};
use sat_rows::Tables;

/// The needs of a recipe that may not be met.
#[derive(Drop)]
struct MissedNeeds<'a> {
    tables: &'a Tables,
    state: &'a MayHold,
    recipe: u32,
}

impl NumberTest for MissedNeeds<'_> {
    ghost fits = { λ u t.
        (t.tables.now ≡ u) × (AreWords u t.state.now × (t.recipe < length u.recipes)) };

    ghost count = { λ u t. length (packages.recipe u t.recipe).needs };

    ghost test = { λ u t i. not (may.surely_met u (may_of t.state.now)
        (nth_entry (packages.recipe u t.recipe).needs i)) };

    fn passes(&self, universe: &Universe, number: usize) -> bool {
        !self
            .state
            .surely_meets(self.tables.needs(self.recipe, number))
    }
}

/// Tells whether some need of a recipe may not be met.
fn misses_needs(universe: &Universe, tables: &Tables, state: &MayHold, recipe: u32) -> bool
    requires same { tables.now ≡ universe.now }
    requires state { AreWords universe.now state.now }
    requires known { recipe < length universe.now.recipes }
    ensures { result ≡ unmet (may.surely_met universe.now (may_of state.now))
        (packages.recipe universe.now recipe).needs }
{
    let count = universe.recipe(recipe).needs().len();
    some_number(
        universe,
        count,
        &MissedNeeds {
            tables,
            state,
            recipe,
        },
    )
}

/// Tells whether a variant that may be present satisfies a clash of a recipe.
fn may_clash(of: LaneOf<'_>, state: &MayHold, recipe: u32) -> bool
    requires state { AreWords of.universe.now state.now }
    requires known { recipe < length of.universe.now.recipes }
    ensures { result ≡ may.some_name of.entry.universe.now (may_of state.now)
        (λ n s. may.may_hold of.entry.universe.now n (λ b. packages.satisfies_any
        of.entry.universe.now (packages.recipe of.entry.universe.now recipe).clashes
        (packages.variant n b)) s) }
{
    state.may_hit(of.tables.clashes(recipe))
}

/// The first trap that a build may meet.
#[tactic(auto, unfolding(farm_model::specs::Traps::first_trap))]
fn build_risk(of: LaneOf<'_>, state: &MayHold, doubts: &Doubts, recipe: u32) -> Option<Trap>
    requires known { recipe < length of.universe.now.recipes }
    requires of_lane { IsOfLane of.universe.now of.lane.now state.now }
    requires doubts { AreDoubts of.universe.now (may_of state.now) doubts.now }
    ensures { result ≡ first_trap (build_risks of.entry.universe.now of.entry.lane.now
        (may_of state.now) (packages.recipe of.entry.universe.now recipe)) }
{
    let universe = of.universe;
    let _names = universe.names();
    let costs = universe.recipe(recipe);
    if may_exceed(of.lane.budget(), state, costs.steps()) {
        return Some(Trap::OverBudget); // X14
    }
    if may_be_unsettled(universe, of.tables, state, doubts) {
        return Some(Trap::Unsettled); // X10
    }
    if misses_needs(universe, of.tables, state, recipe) {
        return Some(Trap::BuildDepends); // X11
    }
    if may_clash(of, state, recipe) {
        return Some(Trap::BuildConflict); // X12
    }
    if may_overflow(universe, of.lane, state.used(), costs.scratch()) {
        return Some(Trap::Full); // X5
    }
    None
}

/// Builds a recipe, or tells the first trap that this may meet. `doubts` tells which entries of
/// what is configured are not known to be met.
///
/// # Errors
///
/// The first trap that the build may meet. The state is then as it was.
pub fn build(of: LaneOf<'_>, state: &mut MayHold, doubts: &Doubts, recipe: u32) -> Result<(), Trap>
    requires known { recipe < length of.universe.now.recipes }
    requires of_lane { IsOfLane of.universe.now of.lane.now state.old }
    requires doubts { AreDoubts of.universe.now (may_of state.old) doubts.now }
    ensures answer { (in_it may_be : Variant → Bool) → Answers of.entry.universe.now
        of.entry.lane.now in_it may_be (may_of state.old) (Instruction.Build recipe)
        (may_of state.new) result }
    ensures of_lane { OnOk result (IsOfLane of.entry.universe.now of.entry.lane.now state.new) }
{
    if let Some(trap) = build_risk(of, state, doubts, recipe) {
        return Err(trap);
    }
    state.spend(of.universe.recipe(recipe).steps());
    state.set_built(recipe);
    Ok(())
}

/// The first trap that a publish may meet.
#[tactic(auto, unfolding(farm_model::specs::Traps::first_trap))]
fn publish_risk(universe: &Universe, lane: &Lane, state: &MayHold, recipe: u32) -> Option<Trap>
    requires of_lane { IsOfLane universe.now lane.now state.now }
    ensures { result
        ≡ first_trap (publish_risks universe.now lane.now (may_of state.now) recipe) }
{
    if may_exceed(lane.budget(), state, universe.outputs(recipe).len() as u64) {
        return Some(Trap::OverBudget); // X14
    }
    if !state.was_built(recipe) {
        return Some(Trap::NotBuilt); // X13
    }
    None
}

/// Publishes the outputs of a recipe, or tells the first trap that this may meet.
///
/// # Errors
///
/// The first trap that the publish may meet. The state is then as it was.
pub fn publish(
    universe: &Universe,
    lane: &Lane,
    state: &mut MayHold,
    recipe: u32,
) -> Result<(), Trap>
    requires of_lane { IsOfLane universe.now lane.now state.old }
    ensures answer { (in_it may_be : Variant → Bool) → Answers universe.now lane.now in_it may_be
        (may_of state.old) (Instruction.Publish recipe) (may_of state.new) result }
    ensures of_lane { OnOk result (IsOfLane universe.now lane.now state.new) }
{
    if let Some(trap) = publish_risk(universe, lane, state, recipe) {
        return Err(trap);
    }
    state.spend(universe.outputs(recipe).len() as u64);
    Ok(())
}
