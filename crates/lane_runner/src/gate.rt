//! Where a lane's thread stops and waits.

ghost use Rattle.std.specs.Prelude.{◌≡◌};
ghost use Rattle.lane_runner.specs.Calls.{IsAhead, IsBranched, IsLastOutput, IsPicked};
ghost use Rattle.lane_runner.specs.declared.gate.Go.TheVariants.{GiveUp};

use crate::archive::LaneArchive;
use chroot_state::Chroot;
use farm_archive::Publication;
use farm_universe::Variant;
use plan_verifier::Accepted;

/// What a gate tells a lane.
#[derive(Clone, Copy, Debug, PartialEq, Eq)]
pub enum Go {
    /// The lane goes on.
    Continue,
    /// The lane gives up, and with it the run.
    GiveUp,
}

/// A lane at one of its instructions, with its chroot. Lanes are numbered from 0 in file order, the
/// instructions of a lane from 1.
#[derive(Clone, Copy)]
pub struct Place<'a> {
    pub accepted: &'a Accepted,
    pub chroot: &'a Chroot,
    pub lane: u32,
    pub instruction: u32,
}

/// Where a lane's thread stops and waits. The lanes of a run share one gate. Lanes are numbered
/// from 0 in file order, the instructions of a lane from 1.
pub trait Gate {
    /// What holds of a gate that may give up: a gate of which it can't hold never does.
    ghost may_give_up: { Self → Type 0 };

    /// Is called ahead of each instruction that the lane stands at, so never of an `else` or an
    /// `end`, and may wait: for a build outside this program, say.
    fn before<A: LaneArchive>(&self, place: Place<'_>, end: &A) -> Go
        requires ahead { IsAhead place.accepted.now place.chroot.now place.lane place.instruction
            (A.about end.now) (A.lane end.now) (A.log end.now) }
        ensures { result ≡ GiveUp → may_give_up self.now };

    /// Is told of each pick of an unpack by its lane: the chroot is the one behind the unpack. May
    /// wait, for the unpack of that very version outside this program.
    fn unpacked<A: LaneArchive>(&self, place: Place<'_>, end: &A, variant: Variant) -> Go
        requires picked { IsPicked place.accepted.now place.lane place.instruction place.chroot.now
            (A.log end.now) variant }
        ensures { result ≡ GiveUp → may_give_up self.now }
    {
        Go::Continue
    }

    /// Is told of each `when` by its lane: whether it goes on in the first branch.
    fn branched<A: LaneArchive>(&self, place: Place<'_>, end: &A, holds: bool)
        requires branched { IsBranched place.accepted.now place.lane place.instruction
            (A.log end.now) holds }
    {}

    /// Is called where nothing in the archive lets a lane pass its wait. It may wait until
    /// something was published since the lane's last call of `before` or `pause`.
    fn pause(&self, lane: u32, instruction: u32) -> Go
        ensures { result ≡ GiveUp → may_give_up self.now };

    /// Is told of each output by its lane, once the output is in the archive: it is the last one
    /// that the lane's end has made. It wakes the lanes that pause.
    fn published<A: LaneArchive>(&self, accepted: &Accepted, end: &A, publication: Publication)
        requires ours { A.about end.now ≡ accepted.now }
        requires there { IsLastOutput accepted.now.universe accepted.now.plan (A.lane end.now)
            (A.log end.now) publication };

    /// Is called behind each halt. It wakes the lanes that pause.
    fn ring(&self);
}
