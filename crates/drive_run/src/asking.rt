//! What the lanes of a run ask.
#![tactic(auto, using(crate::proofs::StageLaws::stages_stay))]

ghost use Rattle.std.specs.Prelude.{◌≡◌, ◌⊎◌, true, false, IfSome};
ghost use Rattle.archive_laws.specs.Records.{Record};
ghost use Rattle.drive_run.specs.Asking.{IsAdded, IsAtMostPut, IsSilent, outgoing};
ghost use Rattle.drive_run.specs.LaneStages.{StaysAtPick};
ghost use Rattle.drive_run.specs.Questions.{entry_of, noted, number_of, question_text, standing, wanted, wanted_at};
ghost use Rattle.drive_run.specs.Replies.{IsKept, IsOf};
ghost use Rattle.lane_runner.specs.Calls.{IsPicked};

use crate::lanes::DrivenLanes;
use crate::office::{Fault, Kept};
use crate::question::{Asked, Question, instruction_at, said_of};
use crate::stage::Stage;
use drive_journal::Journal;
use drive_replay::Note;
use farm_universe::Variant;
use lane_runner::Place;
use plan_reader::Instruction;
use report_sink::Sink;
use std::io::BufRead;
use std::sync::Wait;

impl<R: Wait, I: BufRead + Drop, S: Sink, J: Journal + Drop> DrivenLanes<'_, R, I, S, J> {
    /// What is noted of a lane's instruction.
    pub(crate) fn note_of(&self, place: Place<'_>) -> Note {
        self.known
            .notes
            .of(place.lane, u64::from(place.instruction))
    }

    /// Writes the entry of a question, unless it was asked in an earlier run and has not failed
    /// there, and gives it where it is kept.
    fn note(&mut self, question: Question<'_>) -> Option<Kept>
        ensures of { IfSome result (IsOf question.entry.place.lane
            (number_of (wanted question.entry))) }
        ensures kept { IfSome result (λ _.
            (((noted self.old.known (wanted question.entry)).asked ≡ true)
            × ((noted self.old.known (wanted question.entry)).failed ≡ false))
            ⊎ IsKept (J.state self.old.office.journal) (J.state self.new.office.journal)
            (J.is_kept self.new.office.journal) (entry_of self.old.known (wanted question.entry))) }
        ensures desk { IfSome result (λ _. self.new.office.desk ≡ self.old.office.desk) }
        ensures same { (self.new.known ≡ self.old.known) × (self.new.lines ≡ self.old.lines)
            × (self.new.stages ≡ self.old.stages) }
    {
        let (lane, number) = (question.place.lane, question.number());
        let note = self.known.noted(question);
        if !note.failed {
            if let Some(kept) = Kept::asked_before(&self.known.notes, lane, number) {
                return Some(kept);
            }
        }
        self.office
            .note(&self.known, lane, number, said_of(question, note))
    }

    /// Writes the entry of a question, and then adds its line. Tells whether that is done.
    fn is_asked(&mut self, question: Question<'_>) -> bool
        ensures added { result ≡ true → (self.new.office.desk ≡ self.old.office.desk)
            × IsAdded (outgoing (S.state self.old.lines.out.now) self.old.lines.text.items)
            (outgoing (S.state self.new.lines.out.now) self.new.lines.text.items)
            (question_text self.old.known (wanted question.entry)) }
        ensures failed { result ≡ false
            → IsSilent (outgoing (S.state self.old.lines.out.now) self.old.lines.text.items)
            (outgoing (S.state self.new.lines.out.now) self.new.lines.text.items)
            ⊎ (IsAdded (outgoing (S.state self.old.lines.out.now) self.old.lines.text.items)
            (outgoing (S.state self.new.lines.out.now) self.new.lines.text.items)
            (question_text self.old.known (wanted question.entry))
            × ((S.state self.new.lines.out.now).failed ≡ true)) }
        ensures same { (self.new.known ≡ self.old.known) × (self.new.stages ≡ self.old.stages) }
    {
        let Some(kept) = self.note(question) else {
            return false;
        };
        if self.lines.add(&self.known, question, &kept).is_err() {
            self.office.fail(Fault::WriteFailed);
            return false;
        }
        true
    }

    /// Puts a question, if the lane may ask it: the lane goes on after its answer.
    fn put(&mut self, question: Question<'_>) -> bool
        requires undone { (noted self.old.known (wanted question)).done ≡ false }
        ensures put { IsAtMostPut self.old.known (wanted question.entry) self.old.office.desk
            self.new.office.desk
            (outgoing (S.state self.old.lines.out.now) self.old.lines.text.items)
            (outgoing (S.state self.new.lines.out.now) self.new.lines.text.items) }
        ensures stages { StaysAtPick question.entry.place.lane self.old.stages self.new.stages }
        ensures known { self.new.known ≡ self.old.known }
    {
        let lane = question.place.lane;
        if !self.office.ask(lane, question.number()) {
            return self.give_up(lane);
        }
        if !self.is_asked(question) {
            self.office.withdraw(lane);
            return self.give_up(lane);
        }
        false
    }

    /// Asks for what is not done, once all that was made before is made again.
    fn ask(&mut self, question: Question<'_>) -> bool
        ensures put { IsAtMostPut self.old.known (wanted question.entry) self.old.office.desk
            self.new.office.desk
            (outgoing (S.state self.old.lines.out.now) self.old.lines.text.items)
            (outgoing (S.state self.new.lines.out.now) self.new.lines.text.items) }
        ensures stages { StaysAtPick question.entry.place.lane self.old.stages self.new.stages }
        ensures known { self.new.known ≡ self.old.known }
    {
        let (lane, number) = (question.place.lane, question.number());
        if let Some(kept) = Kept::done_before(&self.known.notes, lane, number) {
            return self.pass(kept);
        }
        if self.office.must_hold() {
            return false;
        }
        self.put(question)
    }

    /// Asks for the lane's chroot, ahead of its first instruction.
    pub(crate) fn open(&mut self, place: Place<'_>) -> bool
        ensures put { IsAtMostPut self.old.known (wanted_at (standing place.entry) Asked.Chroot)
            self.old.office.desk self.new.office.desk
            (outgoing (S.state self.old.lines.out.now) self.old.lines.text.items)
            (outgoing (S.state self.new.lines.out.now) self.new.lines.text.items) }
        ensures stages { StaysAtPick place.entry.lane self.old.stages self.new.stages }
        ensures known { self.new.known ≡ self.old.known }
    {
        let asked = Asked::Chroot;
        self.ask(Question { place, asked })
    }

    /// Asks for the unpack of a variant, which the lane has picked.
    pub(crate) fn unpack(&mut self, place: Place<'_>, variant: Variant) -> bool
        requires picked { (r : Record) × IsPicked place.accepted.now place.lane place.instruction
            place.chroot.now r variant }
        ensures put { IsAtMostPut self.old.known
            (wanted_at (standing place.entry) (Asked.Unpack variant)) self.old.office.desk
            self.new.office.desk
            (outgoing (S.state self.old.lines.out.now) self.old.lines.text.items)
            (outgoing (S.state self.new.lines.out.now) self.new.lines.text.items) }
        ensures stages { StaysAtPick place.entry.lane self.old.stages self.new.stages }
        ensures known { self.new.known ≡ self.old.known }
    {
        let asked = Asked::Unpack(variant);
        self.ask(Question { place, asked })
    }

    /// Lets a lane come to the archive, once it is its turn to.
    fn come(&mut self, lane: u32, note: Note) -> bool
        ensures stages { StaysAtPick lane self.old.stages self.new.stages }
        ensures same { (self.new.known ≡ self.old.known) × (self.new.lines ≡ self.old.lines) }
    {
        if self.office.must_wait(note) {
            return false;
        }
        if self.office.is_stopping() && note.rank.is_none() {
            return self.give_up(lane);
        }
        self.go_to(lane, Stage::Due)
    }

    /// Brings a lane to its turn: asks for what its instruction says, where the driver does that.
    pub(crate) fn approach(&mut self, place: Place<'_>) -> bool
        ensures put { IsAtMostPut self.old.known
            (wanted_at (standing place.entry) Asked.Instruction) self.old.office.desk
            self.new.office.desk
            (outgoing (S.state self.old.lines.out.now) self.old.lines.text.items)
            (outgoing (S.state self.new.lines.out.now) self.new.lines.text.items) }
        ensures stages { StaysAtPick place.entry.lane self.old.stages self.new.stages }
        ensures known { self.new.known ≡ self.old.known }
    {
        let note = self.note_of(place);
        let asked = Asked::Instruction;
        match instruction_at(place) {
            None => self.end(place.lane),
            Some(Instruction::Wait(_)) => self.go_to(place.lane, Stage::Due),
            Some(Instruction::Unpack { .. } | Instruction::When { .. }) => {
                self.come(place.lane, note)
            }
            Some(Instruction::Publish(_)) if note.done => self.come(place.lane, note),
            Some(_) => self.ask(Question { place, asked }),
        }
    }
}
