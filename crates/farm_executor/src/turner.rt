//! What lets the lanes of a run take their turns.

ghost use Rattle.std.specs.Prelude.{◌≡◌, ℕ, Some, slice_get};
ghost use Rattle.farm_executor.specs.Turned.{IsTurned};
ghost use Rattle.lane_runner.specs.Calls.{IsRunning};

use lane_runner::{LaneArchive, LaneTurns};

/// What lets the lanes of a run take their turns, in one thread.
pub trait Turner {
    /// Lets the lanes take their turns, in file order by their numbers, until all have ended or
    /// the run stops: the lane that is the cause of a stop is told.
    fn take_turns<E: LaneArchive + Drop>(&mut self, lanes: &mut [LaneTurns<'_, E>]) -> Option<u32>
        requires running { (k : ℕ) (t : _) → slice_get lanes.old k ≡ Some t
            → IsRunning t.accepted.now t.runner t.chroot (E.about t.end) (E.lane t.end)
            (E.log t.end) }
        ensures turned { (k : ℕ) (s t : _) → slice_get lanes.old k ≡ Some s
            → slice_get lanes.new k ≡ Some t → IsTurned (E.home s.end) (E.about s.end)
            (E.lane s.end) (E.log s.end) (E.home t.end) t.accepted.now t.runner t.chroot
            (E.about t.end) (E.lane t.end) (E.log t.end) };
}
