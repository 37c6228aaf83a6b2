//! What comes of what the lanes of a run ask, and of their turns.
#![tactic(auto, using(crate::proofs::StageLaws::stages_stay))]

ghost use Rattle.std.specs.Prelude.{◌≡◌, ℕ, false, true, Some};
ghost use Rattle.drive_journal.specs.Entries.{HasFailed, IsDone};
ghost use Rattle.drive_run.specs.LaneDesks as desks;
ghost use Rattle.drive_run.specs.LaneStages as stages;
ghost use Rattle.drive_run.specs.LaneStages.{IsAtTurn, StaysAtPick};
ghost use Rattle.drive_run.specs.Questions.{lane_name};
ghost use Rattle.drive_run.specs.Replies.{IsHeeded, IsKept, IsNotedOrLost, may_lose, reply_to};

use crate::desk::Request;
use crate::lanes::DrivenLanes;
use crate::office::{Fault, Reply};
use crate::stage::Stage;
use drive_journal::{Journal, Said};
use farm_archive::Publication;
use farm_universe::Variant;
use lane_runner::{Place, Turn};
use report_sink::Sink;
use std::io::{BufRead, Eprint};
use std::sync::Wait;

impl<R: Wait, I: BufRead + Drop, S: Sink, J: Journal + Drop> DrivenLanes<'_, R, I, S, J> {
    /// Notes that what a lane has asked for has failed: the lane gives up.
    #[tactic(auto, using(crate::proofs::Failures::noted_or_lost))]
    fn fail(&mut self, lane: u32, number: u32) -> bool
        ensures told { result ≡ false }
        ensures stages { self.new.stages ≡ stages.with_stage self.old.stages lane Stage.Ended }
        ensures noted { IsNotedOrLost (J.state self.old.office.journal)
            (J.state self.new.office.journal) (J.is_kept self.new.office.journal)
            (record { lane = lane_name self.old.known lane; number = number; note = HasFailed }) }
        ensures same { (self.new.known ≡ self.old.known) × (self.new.lines ≡ self.old.lines) }
    {
        let _noted = self.office.note(&self.known, lane, number, Said::Failed);
        self.give_up(lane)
    }

    /// Takes the reply to what a lane has asked, if there is one. What has failed is noted before the
    /// lane gives up.
    pub(crate) fn take_reply(&mut self, lane: u32) -> bool
        ensures heeded { IsHeeded (reply_to lane (desks.request_at self.old.office.desk lane)
            self.old.office.has_ended) (may_lose (J.state self.new.office.journal)
            (J.is_kept self.new.office.journal)) result lane self.old.stages self.new.stages }
        ensures kept { result ≡ true → (n : ℕ)
            × (desks.request_at self.old.office.desk lane ≡ Request.Answered n true)
            × IsKept (J.state self.old.office.journal) (J.state self.new.office.journal)
            (J.is_kept self.new.office.journal)
            (record { lane = lane_name self.old.known lane; number = n; note = IsDone }) }
        ensures failed { (n : ℕ)
            → desks.request_at self.old.office.desk lane ≡ Request.Answered n false
            → IsNotedOrLost (J.state self.old.office.journal) (J.state self.new.office.journal)
            (J.is_kept self.new.office.journal)
            (record { lane = lane_name self.old.known lane; number = n; note = HasFailed }) }
        ensures same { (self.new.known ≡ self.old.known) × (self.new.lines ≡ self.old.lines) }
    {
        match self.office.reply(lane) {
            Reply::Open => false,
            Reply::None => self.give_up(lane),
            Reply::Failed(number) => self.fail(lane, number),
            Reply::Done(answered) => match self.office.note_done(&self.known, answered) {
                Some(kept) => self.pass(kept),
                None => self.give_up(lane),
            },
        }
    }

    /// Takes what an unpack has picked, which may not be another variant than is noted.
    fn pick(&mut self, place: Place<'_>, variant: Variant) -> bool
        ensures stages { self.new.stages ≡ stages.with_stage self.old.stages place.entry.lane
            (Stage.Unpacked place.entry.instruction variant) }
        ensures same { (self.new.known ≡ self.old.known) × (self.new.lines ≡ self.old.lines) }
    {
        let note = self.note_of(place);
        if note.pick.is_some_and(|pick| pick != variant.bit) {
            self.office.fail(Fault::JournalMisfit);
        }
        self.office.make(note);
        let number = place.instruction;
        self.go_to(place.lane, Stage::Unpacked { number, variant })
    }

    /// Takes which branch of a `when` a lane has taken, which may not be another than is noted.
    fn go_into(&mut self, place: Place<'_>, holds: bool) -> bool
        ensures stages { self.new.stages
            ≡ stages.with_stage self.old.stages place.entry.lane Stage.Ahead }
        ensures same { (self.new.known ≡ self.old.known) × (self.new.lines ≡ self.old.lines) }
    {
        let note = self.note_of(place);
        match note.branch {
            Some(noted) if noted != holds => self.office.fail(Fault::JournalMisfit),
            Some(_) => {}
            None => {
                let (lane, number) = (place.lane, place.instruction);
                let said = Said::Branched(holds);
                let _kept = self.office.note(&self.known, lane, number, said);
            }
        }
        self.office.make(note);
        self.go_to(place.lane, Stage::Ahead)
    }
}

impl<R: Wait + Eprint, I: BufRead + Drop, S: Sink, J: Journal + Drop> DrivenLanes<'_, R, I, S, J> {
    /// Takes an output that a lane has published, and tells of it. The publish is made with its last
    /// output.
    fn publish(&mut self, place: Place<'_>, output: Publication, is_last: bool) -> bool
        ensures stages { StaysAtPick place.entry.lane self.old.stages self.new.stages }
        ensures same { (self.new.known ≡ self.old.known) × (self.new.lines ≡ self.old.lines) }
    {
        if let Some(told) = &self.told {
            told.tell_publication(self.rt, place.accepted, output);
        }
        self.stages.ring();
        if !is_last {
            return true;
        }
        let note = self.note_of(place);
        self.office.make(note);
        self.go_to(place.lane, Stage::Ahead)
    }

    /// A lane waits until something is published, which is told.
    fn wait(&mut self, place: Place<'_>) -> bool
        ensures stages { StaysAtPick place.entry.lane self.old.stages self.new.stages }
        ensures same { (self.new.known ≡ self.old.known) × (self.new.lines ≡ self.old.lines) }
    {
        if let Some(told) = &mut self.told {
            told.tell_wait(self.rt, place.lane, place.instruction);
        }
        self.stages.wait(place.lane);
        false
    }

    /// Takes what a lane did at its turn at this place.
    fn take_turn(&mut self, place: Place<'_>, turn: Turn, is_last: bool) -> bool
        ensures stages { IsAtTurn place.entry.lane place.entry.instruction (Some turn)
            self.old.stages self.new.stages }
        ensures same { (self.new.known ≡ self.old.known) × (self.new.lines ≡ self.old.lines) }
    {
        match turn {
            Turn::Moved => self.go_to(place.lane, Stage::Ahead),
            Turn::Unpacked(variant) => self.pick(place, variant),
            Turn::Branched(holds) => self.go_into(place, holds),
            Turn::Published(output) => self.publish(place, output, is_last),
            Turn::Waits => self.wait(place),
        }
    }

    /// Takes what a lane did at its turn at this place, where `is_last` tells that it is past its
    /// instruction. Tells whether it goes on.
    pub(crate) fn take(&mut self, place: Place<'_>, turn: Option<Turn>, is_last: bool) -> bool
        ensures stages { IsAtTurn place.entry.lane place.entry.instruction turn self.old.stages
            self.new.stages }
        ensures same { (self.new.known ≡ self.old.known) × (self.new.lines ≡ self.old.lines) }
    {
        match turn {
            None => self.end(place.lane),
            Some(did) => self.take_turn(place, did, is_last),
        }
    }
}
