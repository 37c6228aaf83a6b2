//! A whole schedule.

ghost use Rattle.std.specs.Prelude.{◌≡◌, IfOk};
ghost use Rattle.farm_core.specs.Endings.{ended};
ghost use Rattle.farm_core.specs.Farm.{with_state};
ghost use Rattle.plan_model.specs.Common.{count, play, result_of, IsPlan};

use crate::answer::Step;
use crate::farm::Core;
use farm_universe::{Trap, Universe};
use plan_reader::Plan;
use std::alloc::{AllocError, Global};

/// The event of a schedule that met a trap.
#[derive(Clone, Copy, PartialEq, Eq)]
pub struct Stop {
    /// Its number in the schedule, 1 for the first.
    pub step: usize,
    /// The number of the lane, 0 for the first.
    pub lane: u32,
    /// The number of the instruction in its lane, 1 for the first.
    pub instruction: usize,
    pub trap: Trap,
}

/// What a schedule comes to: the farm after it, and its first trap.
#[derive(Drop)]
pub struct Outcome<'a> {
    pub core: Core<'a>,
    pub trap: Option<Stop>,
}

/// Takes a turn of each of these lanes, up to the first trap.
fn play(core: &mut Core<'_>, schedule: &[u32]) -> Option<Stop>
    ensures ending { ended core.new.state result
        ≡ play core.old.universe core.old.plan.lanes 1 core.old.state schedule.now }
    ensures same { core.new ≡ with_state core.old core.new.state }
{
    for (index, lane) in schedule.iter().enumerate() {
        if let Step::Trapped(trap) = core.step(*lane) {
            return Some(Stop {
                step: index + 1,
                lane: *lane,
                instruction: core.done(*lane) as usize + 1,
                trap,
            });
        }
    }
    None
}

/// Opens a farm and takes a turn of each lane of a schedule, by their numbers, up to the first
/// trap. Turns of lanes that wait, that have ended, or that the plan does not have change nothing,
/// and are events as all others.
pub fn run_schedule<'a>(
    alloc: Global,
    universe: &'a Universe,
    plan: &'a Plan,
    schedule: &[u32],
) -> Result<Outcome<'a>, AllocError>
    requires plan { IsPlan universe.now plan.now.lanes }
    requires counted { plan.now.count ≡ count universe.now plan.now.lanes }
    ensures universe { IfOk result (λ outcome. outcome.core.universe ≡ universe.now) }
    ensures plan { IfOk result (λ outcome. outcome.core.plan ≡ plan.now) }
    ensures ending { IfOk result (λ outcome. ended outcome.core.state outcome.trap
        ≡ result_of universe.now plan.now.lanes schedule.now) }
{
    let mut core = Core::open(alloc, universe, plan)?;
    let trap = play(&mut core, schedule);
    Ok(Outcome { core, trap })
}
