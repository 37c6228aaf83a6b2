//! What a lane waits for.

ghost use Rattle.std.specs.Prelude.{◌≡◌, ◌≢◌, true, false, IfSome, IsNone};
ghost use Rattle.std.specs.Option.{option_map};
ghost use Rattle.deb_relation.specs.Relations as relations;
ghost use Rattle.farm_model.specs.Common.{satisfies_entry, IsKnown};
ghost use Rattle.plan_model.specs.declared.instructions.Instruction as model;
ghost use Rattle.plan_model.specs.Plan as plans;
ghost use Rattle.timed_run.specs.Path.{WaitsFor};
ghost use Rattle.timed_farm.specs.Rests.{RestsBehind};

use deb_relation::Entry;
use farm_universe::relations::satisfies_entry;
use farm_universe::{Universe, Variant};
use plan_reader::{Instruction, Plan};

/// The instruction at a place of a lane; none past the ends of the lane and of the plan.
pub fn instruction_at(plan: &Plan, lane: usize, place: u32) -> Option<&Instruction>
    ensures { option_map (λ x. x.now) result ≡ plans.instruction_at plan.now.lanes lane place }
{
    if lane >= plan.lanes() {
        return None;
    }
    plan.lane(lane).instructions().get(place as usize)
}

/// The entry that an instruction waits for, if it waits.
pub fn waited(instruction: &Instruction) -> Option<&Entry>
    ensures some { IfSome result (λ entry. instruction.now ≡ model.Instruction.Wait entry.now) }
    ensures none { IsNone result → (e : relations.Entry)
        → instruction.now ≢ model.Instruction.Wait e }
{
    match instruction {
        Instruction::Wait(entry) => Some(entry),
        Instruction::Unpack { .. }
        | Instruction::Configure(_)
        | Instruction::Deconfigure(_)
        | Instruction::Remove(_)
        | Instruction::Build(_)
        | Instruction::Publish(_)
        | Instruction::When { .. }
        | Instruction::Otherwise
        | Instruction::EndWhen => None,
    }
}

/// Tells whether a variant is one of the universe.
fn is_known(universe: &Universe, variant: Variant) -> bool
    ensures { result ≡ true → IsKnown universe.now variant }
{
    variant.name < universe.names() && variant.bit < universe.variants(variant.name)
}

/// Tells whether an entry is one that a variant of the universe does not satisfy.
fn is_unmet(universe: &Universe, entry: &Entry, variant: Variant) -> bool
    ensures { result ≡ true → satisfies_entry universe.now entry.now variant ≡ false }
{
    is_known(universe, variant) && !satisfies_entry(universe, entry, variant)
}

/// Tells whether an instruction of a lane is a wait that a variant satisfies.
pub fn waits_for(
    universe: &Universe,
    plan: &Plan,
    lane: usize,
    place: u32,
    variant: Variant,
) -> bool
    requires { IsKnown universe.now variant }
    ensures passes { result ≡ true → WaitsFor universe.now plan.now.lanes lane place variant }
    ensures waits { result ≡ false
        → WaitsFor universe.now plan.now.lanes lane place variant → ⊥ }
{
    let Some(instruction) = instruction_at(plan, lane, place) else {
        return false;
    };
    match waited(instruction) {
        Some(entry) => satisfies_entry(universe, entry, variant),
        None => false,
    }
}

/// Tells whether a lane that rests at a place does so behind a variant too: it has ended there, or
/// waits for what the variant does not satisfy.
pub fn rests_behind(
    universe: &Universe,
    plan: &Plan,
    lane: usize,
    place: u32,
    variant: Variant,
) -> bool
    ensures { result ≡ true
        → RestsBehind universe.now (plans.instruction_at plan.now.lanes lane place) variant }
{
    let Some(instruction) = instruction_at(plan, lane, place) else {
        return true;
    };
    match waited(instruction) {
        Some(entry) => is_unmet(universe, entry, variant),
        None => false,
    }
}
