//! The lanes of a run that a driver carries out, and its streams.

ghost use Rattle.std.specs.Prelude.{◌≡◌, IfOk, map, true, false};
ghost use Rattle.drive_run.specs.DoneBefore.{leasts};
ghost use Rattle.drive_run.specs.LaneDesks as desks;
ghost use Rattle.drive_run.specs.LaneStages as stages;

use crate::known::Known;
use crate::lines::Lines;
use crate::office::{Fault, Kept, Office};
use crate::stage::{Stage, Stages};
use drive_journal::Journal;
use drive_protocol::{Answer, Heard, Input};
use farm_executor::Told;
use plan_verifier::Accepted;
use report_sink::Sink;
use std::alloc::{AllocError, Global};
use std::io::{BufRead, Eprint};
use std::sync::Wait;

/// The lanes of a run, each of which goes on once a driver outside of this program has done what it
/// is to do next. They ask by lines on its output, and hear by lines of its input. What was asked
/// and done goes into a journal, and what an earlier journal notes as done is not asked again:
/// lanes come to the archive in the journal's order then, so that they pick what they had picked.
#[derive(Drop)]
pub struct DrivenLanes<'a, R: Wait, I: BufRead + Drop, S: Sink, J: Journal + Drop> {
    pub(crate) rt: &'a R,
    pub(crate) known: Known,
    pub(crate) office: Office<J>,
    input: Input<I>,
    pub(crate) lines: Lines<'a, S>,
    pub(crate) told: Option<Told>,
    pub(crate) stages: Stages,
}

/// Where a driver's answers come from, where it is asked, and where the journal goes.
#[derive(Drop)]
pub struct DriverStreams<'a, I, S, J> {
    pub input: I,
    pub out: &'a mut S,
    pub journal: J,
}

impl<'a, R: Wait, I: BufRead + Drop, S: Sink, J: Journal + Drop> DrivenLanes<'a, R, I, S, J> {
    /// The lanes of which this is known, over these streams. What goes on is told to the error
    /// output, where there is something to tell it by.
    pub fn new(
        rt: &'a R,
        alloc: Global,
        known: Known,
        streams: DriverStreams<'a, I, S, J>,
        told: Option<Told>,
    ) -> Result<DrivenLanes<'a, R, I, S, J>, AllocError>
        ensures known { IfOk result (λ lanes. lanes.known ≡ known) }
        ensures desk { IfOk result (λ lanes. lanes.office.desk
            ≡ map desks.idle (leasts known.lanes.items)) }
    {
        let DriverStreams {
            input,
            out,
            journal,
        } = streams;
        let office = Office::new(alloc, known.lanes.as_slice(), &known.notes, journal)?;
        let stages = Stages::new(alloc, known.lanes.len())?;
        Ok(DrivenLanes {
            rt,
            known,
            office,
            input: Input::new(alloc, input),
            lines: Lines::new(alloc, out),
            told,
            stages,
        })
    }

    /// What stopped the run from outside of the plan.
    pub fn fault(&self) -> Option<Fault> {
        self.office.fault
    }
}

impl<R: Wait, I: BufRead + Drop, S: Sink, J: Journal + Drop> DrivenLanes<'_, R, I, S, J> {
    /// Where a lane is.
    pub(crate) fn stage(&self, lane: u32) -> Stage
        ensures { result ≡ stages.stage_of self.now.stages lane }
    {
        self.stages.of(lane)
    }

    /// Brings a lane to another stage, from which it goes on.
    pub(crate) fn go_to(&mut self, lane: u32, stage: Stage) -> bool
        ensures told { result ≡ true }
        ensures stages { self.new.stages ≡ stages.with_stage self.old.stages lane stage }
        ensures office { self.new.office ≡ self.old.office }
        ensures same { (self.new.known ≡ self.old.known) × (self.new.lines ≡ self.old.lines) }
    {
        self.stages.set(lane, stage);
        true
    }

    /// A lane goes on no more.
    pub(crate) fn end(&mut self, lane: u32) -> bool
        ensures told { result ≡ false }
        ensures stages { self.new.stages ≡ stages.with_stage self.old.stages lane Stage.Ended }
        ensures office { self.new.office ≡ self.old.office }
        ensures same { (self.new.known ≡ self.old.known) × (self.new.lines ≡ self.old.lines) }
    {
        self.stages.set(lane, Stage::Ended);
        false
    }

    /// A lane gives up, and with it the run.
    pub(crate) fn give_up(&mut self, lane: u32) -> bool
        ensures told { result ≡ false }
        ensures stages { self.new.stages ≡ stages.with_stage self.old.stages lane Stage.Ended }
        ensures desk { self.new.office.desk ≡ desks.stopped self.old.office.desk }
        ensures journal { self.new.office.journal ≡ self.old.office.journal }
        ensures same { (self.new.known ≡ self.old.known) × (self.new.lines ≡ self.old.lines) }
    {
        self.office.give_up(lane);
        self.end(lane)
    }

    /// Brings the lane of an entry past what it has asked for: that is done.
    pub(crate) fn pass(&mut self, done: Kept) -> bool
        ensures told { result ≡ true }
        ensures stages { self.new.stages ≡ stages.with_stage self.old.stages done.lane
            (stages.passed (stages.stage_of self.old.stages done.lane)) }
        ensures office { self.new.office ≡ self.old.office }
        ensures same { (self.new.known ≡ self.old.known) × (self.new.lines ≡ self.old.lines) }
    {
        let lane = done.lane();
        let behind = self.stage(lane).passed();
        self.go_to(lane, behind)
    }

    /// Writes the lines that are to be written.
    fn send(&mut self)
        ensures known { self.new.known ≡ self.old.known }
        ensures stages { self.new.stages ≡ self.old.stages }
    {
        if self.lines.send().is_err() {
            self.office.fail(Fault::WriteFailed);
        }
    }

    /// Tells whether a lane waits for the driver.
    fn some_wait(&self) -> bool {
        let lanes = u32::try_from(self.known.lanes.len()).unwrap_or(u32::MAX);
        for lane in 0..lanes {
            if self.office.has_asked(lane) {
                return true;
            }
        }
        false
    }
}

impl<R: Wait + Eprint, I: BufRead + Drop, S: Sink, J: Journal + Drop> DrivenLanes<'_, R, I, S, J> {
    /// Says on the error output that an answer was passed over.
    fn tell_passed(&self, heard: Heard) {
        let (verb, lane, number) = match heard {
            Heard::Line(Answer::Done { lane, number }) => ("done", lane, number),
            Heard::Line(Answer::Failed { lane, number }) => ("failed", lane, number),
            _ => return,
        };
        let lane = self.known.lane(lane).escape_ascii();
        let _written = eprintln!(self.rt;
            "portfarm: passed over an answer to what is not asked: {verb} {lane} {number}"
        );
    }

    /// Reads what the driver says, one line or those that are there.
    fn read(&mut self, accepted: &Accepted)
        ensures known { self.new.known ≡ self.old.known }
        ensures stages { self.new.stages ≡ self.old.stages }
    {
        for _ in self.rt.forever() {
            let heard = self.input.next(accepted.plan());
            let is_taken = self.office.hear(heard);
            if !is_taken {
                self.tell_passed(heard);
            }
            if !is_taken || self.office.is_stopping() || !self.input.has_line() {
                return;
            }
        }
    }

    /// Writes what the lanes have asked, and hears the driver. Tells whether something may come of
    /// that: a lane waits for it.
    pub(crate) fn hear(&mut self, accepted: &Accepted) -> bool
        ensures known { self.new.known ≡ self.old.known }
        ensures stages { self.new.stages ≡ self.old.stages }
    {
        self.send();
        if !self.some_wait() {
            return false;
        }
        if !self.office.has_ended() {
            self.read(accepted);
        }
        true
    }
}
