//! Where a lane stands.

ghost use Rattle.std.specs.Prelude.{◌≡◌, ◌<◌, ◌≤◌, ◌+◌, ◌^◌, IfOk, length};
ghost use Rattle.farm_core.specs.Lanes.{IsRun, shown, gone_to, passed};
ghost use Rattle.plan_reader.specs.declared.error.TheConstants.{MOST_INSTRUCTIONS};
ghost use Rattle.plan_model.specs.Turn.{start_lane};

use chroot_state::Chroot;
use farm_universe::Universe;
use plan_reader::Lane;
use std::alloc::{AllocError, Global};

/// Where a lane stands: its place, how many outputs are made of the publish that it stands at, its
/// chroot, what it has spent, and for each recipe whether it has built it.
#[derive(Drop)]
pub struct LaneRun {
    pub done: u32,
    pub made: usize,
    pub chroot: Chroot,
    pub spent: u64,
    pub built: Vec<bool>,
    /// One more than the publications that there were when the lane was last found waiting, 0 where
    /// it never was. Until something is published it waits on.
    pub waited: usize,
}

impl LaneRun {
    /// A lane at its beginning, in its base chroot.
    pub fn open(alloc: Global, universe: &Universe, lane: &Lane) -> Result<LaneRun, AllocError>
        requires { lane.now.base < length universe.now.bases }
        ensures start { IfOk result (λ run. shown run ≡ start_lane universe.now lane.now) }
        ensures run { IfOk result (IsRun universe.now lane.now) }
        ensures awake { IfOk result (λ run. run.waited ≡ 0) }
    {
        let chroot = Chroot::open(alloc, universe, lane.base())?;
        let built = vec![in alloc; false; universe.recipes() as usize]?;
        Ok(LaneRun {
            done: 0,
            made: 0,
            chroot,
            spent: 0,
            built,
            waited: 0,
        })
    }

    /// Goes to another place of its lane.
    pub fn go_to(&mut self, place: usize)
        requires { place ≤ MOST_INSTRUCTIONS }
        ensures { self.new ≡ gone_to self.old place }
    {
        self.done = place as u32;
        self.made = 0;
    }

    /// Goes behind the instruction at this cost.
    pub fn pass(&mut self, lane: &Lane, cost: u64)
        requires next { self.old.done < length lane.now.instructions }
        requires short { length lane.now.instructions ≤ MOST_INSTRUCTIONS }
        requires fits { self.old.spent + cost < 2 ^ 64 }
        ensures { self.new ≡ passed lane.now self.old cost }
    {
        self.go_to(lane.next_place(self.done as usize));
        self.spent += cost;
    }
}
