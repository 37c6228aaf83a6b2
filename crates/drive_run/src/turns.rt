//! The turns of the lanes of a run, one lane's after another's.

ghost use Rattle.std.specs.Prelude.{◌≡◌, ℕ, true, false, Some, slice_get};
ghost use Rattle.archive_laws.specs.Records.{Record};
ghost use Rattle.drive_run.specs.Asking.{IsAtMostAsked, IsStaged, outgoing, stand_of, wanted_by};
ghost use Rattle.drive_run.specs.LaneDesks.{is_idle, request_at};
ghost use Rattle.drive_run.specs.LaneStages.{OthersStay, StaysAtPick, stage_at, stage_of};
ghost use Rattle.drive_run.specs.Questions.{standing};
ghost use Rattle.farm_executor.specs.Turned.{IsTurned};
ghost use Rattle.lane_runner.specs.Calls.{IsRunning};

use crate::lanes::DrivenLanes;
use crate::stage::Stage;
use drive_journal::Journal;
use farm_executor::Turner;
use lane_runner::{LaneArchive, LaneTurns, Place};
use plan_verifier::Accepted;
use report_sink::Sink;
use std::io::{BufRead, Eprint};
use std::sync::Wait;

/// Where a lane stands.
fn place_of<'l, E: LaneArchive + Drop>(lane: &'l LaneTurns<'_, E>) -> Place<'l>
    ensures { standing result
        ≡ stand_of lane.now.accepted.now lane.now.runner lane.now.chroot }
{
    Place {
        accepted: lane.accepted,
        chroot: &lane.chroot,
        lane: lane.runner.lane,
        instruction: lane.runner.done.saturating_add(1),
    }
}

/// Tells whether lanes stand in file order, each at the place of its number.
fn are_numbered<E: LaneArchive + Drop>(lanes: &[LaneTurns<'_, E>]) -> bool
    ensures { result ≡ true → (k : ℕ) (t : _) → slice_get lanes.now k ≡ Some t
        → t.runner.lane ≡ k }
{
    for number in 0..lanes.len() {
        if lanes[number].runner.lane as usize != number {
            return false;
        }
    }
    true
}

impl<R: Wait + Eprint, I: BufRead + Drop, S: Sink, J: Journal + Drop> DrivenLanes<'_, R, I, S, J> {
    /// Takes a lane's turn.
    fn turn<E: LaneArchive + Drop>(&mut self, lane: &mut LaneTurns<'_, E>) -> bool
        requires running { IsRunning lane.old.accepted.now lane.old.runner lane.old.chroot
            (E.about lane.old.end) (E.lane lane.old.end) (E.log lane.old.end) }
        requires due { stage_of self.old.stages lane.old.runner.lane ≡ Stage.Due }
        ensures turned { IsTurned (E.home lane.old.end) (E.about lane.old.end)
            (E.lane lane.old.end) (E.log lane.old.end) (E.home lane.new.end)
            lane.new.accepted.now lane.new.runner lane.new.chroot (E.about lane.new.end)
            (E.lane lane.new.end) (E.log lane.new.end) }
        ensures staged { IsStaged lane.new.accepted.now lane.new.runner.lane lane.new.chroot
            (E.log lane.new.end) (stage_at self.new.stages lane.new.runner.lane) }
        ensures others { OthersStay lane.old.runner.lane self.old.stages self.new.stages }
        ensures same { (self.new.known ≡ self.old.known) × (self.new.lines ≡ self.old.lines) }
    {
        let instruction = lane.runner.done.saturating_add(1);
        let turn = lane.turn();
        let _behind = lane.runner.done;
        let place = Place {
            instruction,
            ..place_of(lane)
        };
        self.take(place, turn, lane.runner.made == 0)
    }

    /// Lets a lane go on where it can without its turn, and tells whether it goes on from there.
    fn go_on(&mut self, place: Place<'_>, stage: Stage) -> bool
        requires staged { (r : Record)
            × IsStaged place.accepted.now place.lane place.chroot.now r stage }
        ensures put { IsAtMostAsked self.old.known (wanted_by (standing place.entry) stage)
            self.old.office.desk self.new.office.desk
            (outgoing (S.state self.old.lines.out.now) self.old.lines.text.items)
            (outgoing (S.state self.new.lines.out.now) self.new.lines.text.items) }
        ensures stages { StaysAtPick place.entry.lane self.old.stages self.new.stages }
        ensures known { self.new.known ≡ self.old.known }
    {
        match stage {
            Stage::Closed => self.open(place),
            Stage::Ahead => self.approach(place),
            Stage::Unpacked { number, variant } => {
                let place = Place {
                    instruction: number,
                    ..place
                };
                self.unpack(place, variant)
            }
            Stage::Due | Stage::Waiting(_) | Stage::Ended => false,
        }
    }

    /// Lets a lane go on by one step, and tells whether it goes on from there. Once a lane has given
    /// up, the others come to what they have asked for and no further.
    fn step<E: LaneArchive + Drop>(&mut self, lane: &mut LaneTurns<'_, E>) -> bool
        requires running { IsRunning lane.old.accepted.now lane.old.runner lane.old.chroot
            (E.about lane.old.end) (E.lane lane.old.end) (E.log lane.old.end) }
        requires staged { IsStaged lane.old.accepted.now lane.old.runner.lane lane.old.chroot
            (E.log lane.old.end) (stage_at self.old.stages lane.old.runner.lane) }
        ensures turned { IsTurned (E.home lane.old.end) (E.about lane.old.end)
            (E.lane lane.old.end) (E.log lane.old.end) (E.home lane.new.end)
            lane.new.accepted.now lane.new.runner lane.new.chroot (E.about lane.new.end)
            (E.lane lane.new.end) (E.log lane.new.end) }
        ensures asked { IsAtMostAsked self.old.known
            (wanted_by (stand_of lane.old.accepted.now lane.old.runner lane.old.chroot)
            (stage_of self.old.stages lane.old.runner.lane)) self.old.office.desk
            self.new.office.desk
            (outgoing (S.state self.old.lines.out.now) self.old.lines.text.items)
            (outgoing (S.state self.new.lines.out.now) self.new.lines.text.items) }
        ensures waits { is_idle (request_at self.old.office.desk lane.old.runner.lane) ≡ false
            → (lane.new ≡ lane.old) × (self.new.lines ≡ self.old.lines) }
        ensures staged { IsStaged lane.new.accepted.now lane.new.runner.lane lane.new.chroot
            (E.log lane.new.end) (stage_at self.new.stages lane.new.runner.lane) }
        ensures others { OthersStay lane.old.runner.lane self.old.stages self.new.stages }
        ensures known { self.new.known ≡ self.old.known }
    {
        let number = lane.runner.lane;
        if self.office.has_asked(number) {
            return self.take_reply(number);
        }
        if self.office.cause().is_some() {
            return false;
        }
        match self.stage(number) {
            Stage::Due => self.turn(lane),
            stage => self.go_on(place_of(lane), stage),
        }
    }

    /// Lets a lane go on until it rests, and tells whether it has.
    fn visit<E: LaneArchive + Drop>(&mut self, lane: &mut LaneTurns<'_, E>) -> bool
        requires running { IsRunning lane.old.accepted.now lane.old.runner lane.old.chroot
            (E.about lane.old.end) (E.lane lane.old.end) (E.log lane.old.end) }
        requires staged { IsStaged lane.old.accepted.now lane.old.runner.lane lane.old.chroot
            (E.log lane.old.end) (stage_at self.old.stages lane.old.runner.lane) }
        ensures turned { IsTurned (E.home lane.old.end) (E.about lane.old.end)
            (E.lane lane.old.end) (E.log lane.old.end) (E.home lane.new.end)
            lane.new.accepted.now lane.new.runner lane.new.chroot (E.about lane.new.end)
            (E.lane lane.new.end) (E.log lane.new.end) }
        ensures staged { IsStaged lane.new.accepted.now lane.new.runner.lane lane.new.chroot
            (E.log lane.new.end) (stage_at self.new.stages lane.new.runner.lane) }
        ensures others { OthersStay lane.old.runner.lane self.old.stages self.new.stages }
        ensures known { self.new.known ≡ self.old.known }
    {
        let mut has_moved = false;
        for _ in self.rt.forever() {
            if !self.step(lane) {
                break;
            }
            has_moved = true;
        }
        has_moved
    }

    /// Lets each lane go on until it rests, and tells whether one has.
    fn round<E: LaneArchive + Drop>(&mut self, lanes: &mut [LaneTurns<'_, E>]) -> bool
        requires running { (k : ℕ) (t : _) → slice_get lanes.old k ≡ Some t
            → IsRunning t.accepted.now t.runner t.chroot (E.about t.end) (E.lane t.end)
            (E.log t.end) }
        requires numbered { (k : ℕ) (t : _) → slice_get lanes.old k ≡ Some t
            → t.runner.lane ≡ k }
        requires staged { (k : ℕ) (t : _) → slice_get lanes.old k ≡ Some t
            → IsStaged t.accepted.now t.runner.lane t.chroot (E.log t.end)
            (stage_at self.old.stages t.runner.lane) }
        ensures turned { (k : ℕ) (s t : _) → slice_get lanes.old k ≡ Some s
            → slice_get lanes.new k ≡ Some t → IsTurned (E.home s.end) (E.about s.end)
            (E.lane s.end) (E.log s.end) (E.home t.end) t.accepted.now t.runner t.chroot
            (E.about t.end) (E.lane t.end) (E.log t.end) }
        ensures numbered { (k : ℕ) (t : _) → slice_get lanes.new k ≡ Some t
            → t.runner.lane ≡ k }
        ensures staged { (k : ℕ) (t : _) → slice_get lanes.new k ≡ Some t
            → IsStaged t.accepted.now t.runner.lane t.chroot (E.log t.end)
            (stage_at self.new.stages t.runner.lane) }
        ensures known { self.new.known ≡ self.old.known }
    {
        let mut has_moved = false;
        for number in 0..lanes.len() {
            if self.visit(&mut lanes[number]) {
                has_moved = true;
            }
        }
        has_moved
    }

    /// Lets each lane go on until it rests, and hears the driver where none has gone on. Tells
    /// whether something may come of that.
    fn go_round<E: LaneArchive + Drop>(
        &mut self,
        accepted: &Accepted,
        lanes: &mut [LaneTurns<'_, E>],
    ) -> bool
        requires running { (k : ℕ) (t : _) → slice_get lanes.old k ≡ Some t
            → IsRunning t.accepted.now t.runner t.chroot (E.about t.end) (E.lane t.end)
            (E.log t.end) }
        requires numbered { (k : ℕ) (t : _) → slice_get lanes.old k ≡ Some t
            → t.runner.lane ≡ k }
        requires staged { (k : ℕ) (t : _) → slice_get lanes.old k ≡ Some t
            → IsStaged t.accepted.now t.runner.lane t.chroot (E.log t.end)
            (stage_at self.old.stages t.runner.lane) }
        ensures turned { (k : ℕ) (s t : _) → slice_get lanes.old k ≡ Some s
            → slice_get lanes.new k ≡ Some t → IsTurned (E.home s.end) (E.about s.end)
            (E.lane s.end) (E.log s.end) (E.home t.end) t.accepted.now t.runner t.chroot
            (E.about t.end) (E.lane t.end) (E.log t.end) }
        ensures numbered { (k : ℕ) (t : _) → slice_get lanes.new k ≡ Some t
            → t.runner.lane ≡ k }
        ensures staged { (k : ℕ) (t : _) → slice_get lanes.new k ≡ Some t
            → IsStaged t.accepted.now t.runner.lane t.chroot (E.log t.end)
            (stage_at self.new.stages t.runner.lane) }
        ensures known { self.new.known ≡ self.old.known }
    {
        if self.round(lanes) {
            return true;
        }
        self.hear(accepted)
    }
}

impl<R: Wait + Eprint, I: BufRead + Drop, S: Sink, J: Journal + Drop> Turner
    for DrivenLanes<'_, R, I, S, J> {
    fn take_turns<E: LaneArchive + Drop>(&mut self, lanes: &mut [LaneTurns<'_, E>]) -> Option<u32> {
        if lanes.is_empty() || !are_numbered(lanes) {
            return None;
        }
        let accepted = lanes[0].accepted;
        self.stages.close();
        for _ in self.rt.forever() {
            if !self.go_round(accepted, lanes) {
                break;
            }
        }
        self.office.cause()
    }
}
