//! The turn of a lane of a farm at work.

ghost use Rattle.std.specs.Prelude.{◌≡◌, ◌≢◌, ◌<◌, length};
ghost use Rattle.farm_core.specs.Farm.{IsCore, state_of};
ghost use Rattle.farm_core.specs.Steps.{IsStepped};
ghost use Rattle.farm_core.specs.declared.traps.Traps.TheVariants.{Unmet};
ghost use Rattle.farm_model.specs.declared.types.Trap.{Trap};
ghost use Rattle.plan_model.specs.Run.{step, Trapped};

use crate::answer::Step;
use crate::lane::LaneRun;
use crate::traps::Traps;
use crate::turn::Turn;
use farm_archive::PlainArchive;
use farm_universe::Universe;
use plan_reader::Plan;

/// Takes the turn of a lane of the plan. A lane that waits is not looked at again until something
/// is published.
pub fn take_turn(
    universe: &Universe,
    plan: &Plan,
    lanes: &mut Vec<LaneRun>,
    archive: &mut PlainArchive,
    lane: u32,
    traps: Traps,
) -> Step
    requires there { lane < length plan.now.lanes }
    requires core { IsCore universe.now plan.now.lanes lanes.old.items archive.old }
    requires free { traps ≡ Unmet → (trap : Trap)
        → step universe.now plan.now.lanes (state_of lanes.old.items archive.old) lane
        ≢ Trapped trap }
    ensures { IsStepped universe.now plan.now.lanes lane lanes.old.items archive.old
        lanes.new.items archive.new result }
{
    let _lanes = plan.lanes();
    let of = plan.lane(lane as usize);
    let published = archive.history().len();
    let run = &mut lanes[lane as usize];
    if run.waited > published {
        return Step::Blocked;
    }
    match run.turn(universe, archive, of, traps) {
        Turn::Goes => Step::Moved,
        Turn::Gives(output) => {
            archive.publish(lane, output);
            Step::Moved
        }
        Turn::Waits => {
            run.waited = published + 1;
            Step::Blocked
        }
        Turn::Ends => Step::Finished,
        Turn::Fails(trap) => Step::Trapped(trap),
    }
}
