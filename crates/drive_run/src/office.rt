//! What a driver was asked for and has answered.

ghost use Rattle.std.specs.Prelude.{◌≡◌, IfNone, IfOk, IfSome, is_none, is_some, map, not};
ghost use Rattle.drive_run.specs.LaneDesks as desks;
ghost use Rattle.drive_journal.specs.Entries.{IsDone};
ghost use Rattle.drive_journal.specs.Said.{note_in};
ghost use Rattle.drive_replay.specs.LaneNotes.{note_at};
ghost use Rattle.drive_run.specs.DoneBefore.{leasts};
ghost use Rattle.drive_run.specs.Questions.{lane_name};
ghost use Rattle.drive_run.specs.Replies as spec;
ghost use Rattle.drive_run.specs.Replies.{IsKept, IsOf, may_lose};

use crate::keeping::keep_entry;
use crate::known::{Known, LaneWords};
use crate::{Desk, Request};
use drive_journal::{Entry, Journal, Said};
use drive_protocol::{Answer, Heard};
use drive_replay::{Note, Notes};
use std::alloc::{AllocError, Global};

/// What ends a run from outside of the plan.
#[derive(Clone, Copy, PartialEq, Eq)]
pub enum Fault {
    /// The output took nothing.
    WriteFailed,
    /// An entry of the journal was not kept.
    JournalFailed,
    /// The journal is not of this run.
    JournalMisfit,
    /// A line of the driver is no answer.
    BadAnswer,
}

/// A lane, and the number of what it has asked for and the driver has answered to be done. An office
/// makes it, of such an answer alone.
#[derive(Drop)]
pub struct Answered {
    lane: u32,
    number: u32,
}

/// A lane, and the number of its instruction of which the journal keeps an entry. An office makes
/// it, once the entry is written and kept; else it comes of the notes of an earlier run.
#[derive(Drop)]
pub struct Kept {
    lane: u32,
    number: u32,
}

impl Kept {
    /// Of what an earlier run has noted as asked for.
    pub fn asked_before(notes: &Notes, lane: u32, number: u32) -> Option<Kept>
        ensures noted { is_some result ≡ (note_at notes.now lane number).asked }
        ensures of { IfSome result (IsOf lane number) }
    {
        if notes.of(lane, u64::from(number)).asked {
            return Some(Kept { lane, number });
        }
        None
    }

    /// Of what an earlier run has noted as done.
    pub fn done_before(notes: &Notes, lane: u32, number: u32) -> Option<Kept>
        ensures noted { is_some result ≡ (note_at notes.now lane number).done }
        ensures of { IfSome result (IsOf lane number) }
    {
        if notes.of(lane, u64::from(number)).done {
            return Some(Kept { lane, number });
        }
        None
    }

    /// The lane.
    pub fn lane(&self) -> u32
        ensures { result ≡ self.now.lane }
    {
        self.lane
    }
}

/// What comes of a request that a lane waits for.
pub enum Reply {
    Done(Answered),
    /// What was asked for under this number has failed.
    Failed(u32),
    /// None comes: the driver says nothing more.
    None,
    /// None has come yet.
    Open,
}

/// What a driver was asked for and has answered, and the journal of that.
#[derive(Drop)]
pub struct Office<J> {
    pub journal: J,
    pub fault: Option<Fault>,
    desk: Desk,
    // nothing more is asked; the driver says nothing more
    is_stopping: bool,
    has_ended: bool,
    cause: Option<u32>,
    // how many noted events at the archive are made again, and how many there are
    next_rank: u64,
    ranks: u64,
}

/// The desks of lanes.
fn desk_of(alloc: Global, lanes: &[LaneWords]) -> Result<Desk, AllocError>
    ensures { IfOk result (λ desk. desk ≡ map desks.idle (leasts lanes.now)) }
{
    let mut least = Vec::new(alloc);
    for lane in lanes {
        least.push(lane.least)?;
    }
    Desk::new(alloc, least.as_slice())
}

impl<J: Journal + Drop> Office<J> {
    /// An office for these lanes. None asks for what stands before its least number.
    pub fn new(
        alloc: Global,
        lanes: &[LaneWords],
        notes: &Notes,
        journal: J,
    ) -> Result<Office<J>, AllocError>
        ensures { IfOk result (λ office. office.desk ≡ map desks.idle (leasts lanes.now)) }
    {
        let desk = desk_of(alloc, lanes)?;
        Ok(Office {
            journal,
            fault: None,
            desk,
            is_stopping: false,
            has_ended: false,
            cause: None,
            next_rank: 0,
            ranks: notes.ranks(),
        })
    }

    // ---- stopping

    /// Nothing more is to be asked.
    pub fn stop(&mut self)
        ensures desk { self.new.desk ≡ desks.stopped self.old.desk }
        ensures journal { self.new.journal ≡ self.old.journal }
    {
        self.desk.stop();
        self.is_stopping = true;
    }

    /// Stops for a fault: nothing more is read either.
    pub fn fail(&mut self, fault: Fault)
        ensures desk { self.new.desk ≡ desks.stopped self.old.desk }
        ensures journal { self.new.journal ≡ self.old.journal }
    {
        if self.fault.is_none() {
            self.fault = Some(fault);
        }
        self.has_ended = true;
        self.stop();
    }

    /// A lane gives up: the first one that does is the cause of the stop.
    pub fn give_up(&mut self, lane: u32)
        ensures desk { self.new.desk ≡ desks.stopped self.old.desk }
        ensures journal { self.new.journal ≡ self.old.journal }
    {
        self.stop();
        if self.cause.is_none() {
            self.cause = Some(lane);
        }
    }

    pub fn is_stopping(&self) -> bool {
        self.is_stopping
    }

    pub fn has_ended(&self) -> bool {
        self.has_ended
    }

    /// The lane that is the cause of the stop, once one has given up.
    pub fn cause(&self) -> Option<u32> {
        self.cause
    }

    // ---- what was made before

    /// Tells whether a lane is to wait ahead of an event at the archive, until all that was made
    /// before it is made again.
    pub fn must_wait(&self, note: Note) -> bool {
        match note.rank {
            Some(rank) => rank != self.next_rank,
            None => self.must_hold(),
        }
    }

    /// Tells whether what is new is to wait until all that was made before is made again.
    pub fn must_hold(&self) -> bool {
        !self.is_stopping && self.next_rank != self.ranks
    }

    /// Notes that an event is made; of one that was made before, that the next one may be.
    pub fn make(&mut self, note: Note) {
        if note.rank == Some(self.next_rank) {
            self.next_rank = self.next_rank.wrapping_add(1);
        }
    }

    // ---- asking

    /// Writes an entry of a lane to the journal, and gives it where it is kept; else the run stops.
    pub fn note(&mut self, known: &Known, lane: u32, number: u32, said: Said<'_>) -> Option<Kept>
        ensures of { IfSome result (IsOf lane number) }
        ensures kept { IfSome result (λ _. IsKept (J.state self.old.journal)
            (J.state self.new.journal) (J.is_kept self.new.journal)
            (record {
              lane = lane_name known.now lane;
              number = number;
              note = note_in said.entry;
            })) }
        ensures told { is_none result ≡ may_lose (J.state self.new.journal)
            (J.is_kept self.new.journal) }
        ensures goes_on { IfSome result (λ _. self.new.desk ≡ self.old.desk) }
        ensures stopped { IfNone result (self.new.desk ≡ desks.stopped self.old.desk) }
    {
        let entry = Entry {
            lane: known.lane(lane),
            number: u64::from(number),
            said,
        };
        if keep_entry(&mut self.journal, entry) {
            return Some(Kept { lane, number });
        }
        self.fail(Fault::JournalFailed);
        None
    }

    /// Notes that what a lane has asked for is done, and gives the entry where it is kept; else the
    /// run stops.
    pub fn note_done(&mut self, known: &Known, answered: Answered) -> Option<Kept>
        ensures of { IfSome result (IsOf answered.lane answered.number) }
        ensures kept { IfSome result (λ _. IsKept (J.state self.old.journal)
            (J.state self.new.journal) (J.is_kept self.new.journal)
            (record {
              lane = lane_name known.now answered.lane;
              number = answered.number;
              note = IsDone;
            })) }
        ensures told { is_none result ≡ may_lose (J.state self.new.journal)
            (J.is_kept self.new.journal) }
        ensures stopped { IfNone result (self.new.desk ≡ desks.stopped self.old.desk) }
    {
        self.note(known, answered.lane, answered.number, Said::Done)
    }

    /// Notes that a lane asks, if it may, and tells whether it is so.
    pub fn ask(&mut self, lane: u32, number: u32) -> bool
        ensures told { result ≡ desks.may_ask self.old.desk lane number }
        ensures after { self.new.desk ≡ desks.asked self.old.desk lane number }
    {
        self.desk.ask(lane, number)
    }

    /// Notes that a lane waits no more for what it has asked.
    pub fn withdraw(&mut self, lane: u32)
        ensures { self.new.desk ≡ desks.withdrawn self.old.desk lane }
    {
        self.desk.withdraw(lane);
    }

    /// Tells whether a lane has asked for something and has not read what came of it.
    pub fn has_asked(&self, lane: u32) -> bool
        ensures { result ≡ not (desks.is_idle (desks.request_at self.now.desk lane)) }
    {
        !matches!(self.desk.request(lane), Request::Idle)
    }

    /// The reply to what a lane has asked.
    pub fn reply(&mut self, lane: u32) -> Reply
        ensures told { result
            ≡ spec.reply_to lane (desks.request_at self.old.desk lane) self.old.has_ended }
        ensures journal { self.new.journal ≡ self.old.journal }
    {
        let request = self.desk.request(lane);
        if let Request::Answered { number, done } = request {
            let _taken = self.desk.take(lane);
            return if done {
                Reply::Done(Answered { lane, number })
            } else {
                Reply::Failed(number)
            };
        }
        if self.has_ended {
            self.desk.withdraw(lane);
            return Reply::None;
        }
        Reply::Open
    }

    /// Gives an answer to the lane that has asked, and tells whether one has.
    fn give(&mut self, lane: u32, number: u64, done: bool) -> bool
        ensures told { result ≡ desks.is_open_in (desks.request_at self.old.desk lane) number }
        ensures after { self.new.desk ≡ spec.desks_given self.old.desk lane number done }
    {
        let is_taken = self.desk.post(lane, number, done);
        if is_taken && !done {
            self.give_up(lane);
        }
        is_taken
    }

    /// Nothing more comes from the driver.
    fn hear_end(&mut self)
        ensures { self.new.desk ≡ desks.stopped self.old.desk }
    {
        self.has_ended = true;
        self.stop();
    }

    /// Takes what was heard of the driver. Tells whether it was taken: an answer to what no lane
    /// has asked is passed over.
    pub fn hear(&mut self, heard: Heard) -> bool
        ensures told { result ≡ spec.is_heard self.old.desk heard }
        ensures after { self.new.desk ≡ spec.desks_behind self.old.desk heard }
    {
        match heard {
            Heard::End => self.hear_end(),
            Heard::Line(Answer::Done { lane, number }) => return self.give(lane, number, true),
            Heard::Line(Answer::Failed { lane, number }) => return self.give(lane, number, false),
            Heard::Line(Answer::Stop) => self.stop(),
            Heard::Line(Answer::Nothing) => {}
            Heard::Line(Answer::Bad) => self.fail(Fault::BadAnswer),
        }
        true
    }
}
