//! A `when`, over one load.

ghost use Rattle.std.specs.Prelude.{◌≡◌, ◌<◌, ◌≤◌, suc, Some, length};
ghost use Rattle.lane_runner.specs.Calls.{HasKept, IsBranched, IsRunning, IsSameEnd};
ghost use Rattle.lane_runner.specs.OnWay.{branch_place};
ghost use Rattle.plan_model.specs.Plan.{instruction_at};
ghost use Rattle.plan_model.specs.declared.instructions.Instruction.TheVariants.{When};

use crate::archive::LaneArchive;
use crate::runner::{Runner, lane_of};
use chroot_state::Chroot;
use deb_relation::Op;
use deb_version::Version;
use farm_archive::newest;
use plan_reader::Lane;
use plan_verifier::Accepted;

/// Where a `when` at a place leads to.
fn branch_place(lane: &Lane, place: usize, holds: bool) -> usize
    requires { place < length lane.now.instructions }
    ensures place { result ≡ branch_place lane.now place holds }
    ensures within { result ≤ length lane.now.instructions }
    ensures behind { place < result }
{
    if holds {
        return lane.next_place(place);
    }
    lane.else_place(place)
}

impl Runner {
    /// Goes into the first branch where the archive has a variant of a name in the relation, else
    /// into the second one, and tells whether it is the first.
    pub(crate) fn branch<A: LaneArchive>(
        &mut self,
        accepted: &Accepted,
        chroot: &Chroot,
        archive: &mut A,
        name: u32,
        relation: &Option<(Op, Version)>,
    ) -> bool
        requires running { IsRunning accepted.now self.old chroot.now (A.about archive.old)
            (A.lane archive.old) (A.log archive.old) }
        requires here { instruction_at accepted.now.plan self.old.lane self.old.done
            ≡ Some (When name relation.now) }
        ensures same { IsSameEnd (A.home archive.old) (A.about archive.old) (A.lane archive.old)
            (A.home archive.new) (A.about archive.new) (A.lane archive.new) }
        ensures kept { HasKept (A.log archive.old) (A.log archive.new) }
        ensures running { IsRunning accepted.now self.new chroot.now (A.about archive.new)
            (A.lane archive.new) (A.log archive.new) }
        ensures moves { self.old.done < self.new.done }
        ensures branched { IsBranched accepted.now self.old.lane (suc self.old.done)
            (A.log archive.new) result }
    {
        accepted.keeps();
        let universe = accepted.universe();
        let word = archive.load(name);
        let holds = newest(universe, word, name, relation).is_some();
        let lane = lane_of(accepted, self.lane);
        self.go_to(branch_place(lane, self.done as usize, holds));
        holds
    }
}
