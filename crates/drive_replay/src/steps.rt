//! Turns of a core, where they move its lanes.

ghost use Rattle.std.specs.Prelude.{◌≡◌, IsNone};
ghost use Rattle.std.specs.Option.{option_map};
ghost use Rattle.drive_replay.specs.Onward.{here, is_wait, led, moved, stood, turned, waited};
ghost use Rattle.plan_model.specs.Plan.{instruction_at};

use farm_core::{Core, Step};
use plan_reader::{Instruction, Plan};

/// The instruction behind so many of a lane.
pub fn instruction_at(plan: &Plan, lane: u32, place: u64) -> Option<&Instruction>
    ensures { option_map (λ x. x.now) result ≡ instruction_at plan.now.lanes lane place }
{
    if lane as usize >= plan.lanes() {
        return None;
    }
    plan.lane(lane as usize).instructions().get(place as usize)
}

/// Takes a turn of a lane, if it moves the lane; else nothing has changed.
#[tactic(auto, unfolding(crate::specs::Onward::moved))]
pub fn moves(core: &mut Core, lane: u32) -> Option<()>
    ensures moved { option_map (λ _. core.new) result ≡ moved core.old lane }
    ensures stays { IsNone result → core.new ≡ core.old }
{
    match core.step(lane) {
        Step::Moved => Some(()),
        _ => None,
    }
}

/// Takes so many turns of a lane, if each moves it.
#[tactic(auto, using(crate::proofs::Onwards::turned_next))]
pub fn turns(core: &mut Core, lane: u32, count: usize) -> Option<()>
    ensures { option_map (λ _. core.new) result ≡ turned count core.old lane }
{
    for _ in 0..count {
        moves(core, lane)?;
    }
    Some(())
}

/// The instruction that a lane stands at.
pub fn here<'a>(core: &Core<'a>, lane: u32) -> Option<&'a Instruction>
    ensures { option_map (λ x. x.now) result ≡ here core.now lane }
{
    instruction_at(core.plan(), lane, u64::from(core.done(lane)))
}

fn is_at_wait(core: &Core, lane: u32) -> bool
    ensures { result ≡ is_wait (here core.now lane) }
{
    matches!(here(core, lane), Some(Instruction::Wait(_)))
}

/// Takes a lane past the wait that it stands at, if that lets it pass.
fn waits(core: &mut Core, lane: u32) -> Option<()>
    ensures { option_map (λ _. core.new) result ≡ waited core.old lane }
{
    if !is_at_wait(core, lane) {
        return None;
    }
    moves(core, lane)
}

/// Takes a lane behind so many instructions, by its waits alone.
#[tactic(auto, using(crate::proofs::Onwards::led_next))]
fn leads(core: &mut Core, lane: u32, place: u64) -> Option<()>
    ensures { option_map (λ _. core.new) result ≡ led place core.old lane place }
{
    for _ in 0..place {
        if u64::from(core.done(lane)) == place {
            return Some(());
        }
        waits(core, lane)?;
    }
    if u64::from(core.done(lane)) == place {
        Some(())
    } else {
        None
    }
}

/// Takes a lane to the instruction of this number, by its waits alone.
pub fn stands(core: &mut Core, lane: u32, number: u64) -> Option<()>
    ensures { option_map (λ _. core.new) result ≡ stood core.old lane number }
{
    let place = number.checked_sub(1)?;
    leads(core, lane, place)
}
