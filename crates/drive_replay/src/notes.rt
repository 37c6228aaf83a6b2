//! What is noted of the instructions of a plan.

ghost use Rattle.std.specs.Prelude.{◌≡◌, ◌<◌, ◌+◌, ◌^◌, IfOk, slice_set};
ghost use Rattle.deb_text.specs.Lists.{lists};
ghost use Rattle.drive_replay.specs.LaneNotes.{asked_at, no_notes, note_at, now_of, placed, with_again, with_ask, with_asked, with_branch, with_done, with_failure, with_note, with_pick, with_rank, with_time};

use plan_reader::Plan;
use std::alloc::{AllocError, Global};
use std::marker::Model;

/// What is noted of one instruction.
#[derive(Clone, Copy)]
pub struct Note {
    /// It was asked for, and may have been begun.
    pub asked: bool,
    /// It is done.
    pub done: bool,
    /// It failed, and was not asked for again.
    pub failed: bool,
    /// When it was asked for last, in seconds after the run's beginning; 0 where no time was noted
    /// by then.
    pub since: u64,
    /// When it was done, likewise.
    pub until: u64,
    /// Its number among the events at which the archive was looked at or changed, from 0.
    pub rank: Option<u64>,
    /// What its unpack has picked, by the variant's bit.
    pub pick: Option<u32>,
    /// Whether its `when` has taken the first branch.
    pub branch: Option<bool>,
}

/// Nothing is noted.
pub const NOTHING: Note = Note {
    asked: false,
    done: false,
    failed: false,
    since: 0,
    until: 0,
    rank: None,
    pick: None,
    branch: None,
};

/// The notes of a plan's instructions. Lanes are numbered from 0 in file order, instructions from
/// 1; 0 stands for the lane's chroot.
#[derive(Drop)]
pub struct Notes {
    asked: Vec<Option<u64>>,
    places: Vec<Vec<Note>>,
    ranks: u64,
    seconds: Option<u64>,
}

impl Model for Notes {
    ghost use Rattle.deb_text.specs.Lists.{lists};
    ghost use Rattle.drive_replay.specs.LaneNotes.{LaneNotes};

    ghost Value = { LaneNotes };

    ghost view = { λ n. record {
      asked = n.asked.items;
      places = lists n.places.items;
      ranks = n.ranks;
      seconds = n.seconds;
    } };
}

fn set_note(places: &mut Vec<Note>, number: u64, note: Note)
    ensures { places.new.items ≡ slice_set places.old.items number note }
{
    if let Some(place) = places.get_mut(number as usize) {
        *place = note;
    }
}

fn set_in(places: &mut Vec<Vec<Note>>, lane: u32, number: u64, note: Note)
    ensures { lists places.new.items ≡ placed (lists places.old.items) lane number note }
{
    if let Some(places) = places.get_mut(lane as usize) {
        set_note(places, number, note);
    }
}

impl Notes {
    /// No notes.
    pub fn new(alloc: Global, plan: &Plan) -> Result<Notes, AllocError>
        ensures { IfOk result (λ notes. notes ≡ no_notes plan.now.lanes) }
    {
        let mut asked = Vec::new(alloc);
        let mut places = Vec::new(alloc);
        for number in 0..plan.lanes() {
            let count = plan.lane(number).instructions().len();
            asked.push(None)?;
            places.push(vec![in alloc; NOTHING; count + 1]?)?;
        }
        Ok(Notes {
            asked,
            places,
            ranks: 0,
            seconds: None,
        })
    }

    /// What is noted of an instruction; nothing of one that is not there.
    pub fn of(&self, lane: u32, number: u64) -> Note
        ensures { result ≡ note_at self.now lane number }
    {
        let Some(places) = self.places.get(lane as usize) else {
            return NOTHING;
        };
        match places.get(number as usize) {
            Some(note) => *note,
            None => NOTHING,
        }
    }

    /// The number of what a lane has asked for and is not done.
    pub fn asked(&self, lane: u32) -> Option<u64>
        ensures { result ≡ asked_at self.now lane }
    {
        match self.asked.get(lane as usize) {
            Some(asked) => *asked,
            None => None,
        }
    }

    /// How many events there are at which the archive was looked at or changed.
    pub fn ranks(&self) -> u64
        ensures { result ≡ self.now.ranks }
    {
        self.ranks
    }

    /// The seconds after the run's beginning at which the last entry was written, if times are noted.
    pub fn seconds(&self) -> Option<u64>
        ensures { result ≡ self.now.seconds }
    {
        self.seconds
    }

    /// When the next entry was written: 0 where no time is noted.
    fn now(&self) -> u64
        ensures { result ≡ now_of self.now }
    {
        match self.seconds {
            Some(seconds) => seconds,
            None => 0,
        }
    }

    /// Notes this of an instruction.
    fn set(&mut self, lane: u32, number: u64, note: Note)
        ensures { self.new ≡ with_note self.old lane number note }
    {
        set_in(&mut self.places, lane, number, note);
    }

    /// Notes what a lane has asked for and is not done.
    fn set_asked(&mut self, lane: u32, asked: Option<u64>)
        ensures { self.new ≡ with_asked self.old lane asked }
    {
        if let Some(place) = self.asked.get_mut(lane as usize) {
            *place = asked;
        }
    }

    /// Notes that a lane has asked for an instruction.
    pub(crate) fn note_ask(&mut self, lane: u32, number: u64)
        ensures { self.new ≡ with_ask self.old lane number }
    {
        let note = Note {
            asked: true,
            since: self.now(),
            ..self.of(lane, number)
        };
        self.set(lane, number, note);
        self.set_asked(lane, Some(number));
    }

    /// Notes that a lane has picked this variant, and has asked for it.
    pub(crate) fn note_pick(&mut self, lane: u32, number: u64, bit: u32)
        requires { self.old.ranks + 1 < 2 ^ 64 }
        ensures { self.new ≡ with_pick self.old lane number bit }
    {
        let note = self.of(lane, number);
        let note = Note {
            asked: true,
            since: self.now(),
            pick: Some(bit),
            rank: Some(self.ranks),
            ..note
        };
        self.set(lane, number, note);
        self.set_asked(lane, Some(number));
        self.ranks += 1;
    }

    /// Notes which branch a lane has taken.
    pub(crate) fn note_branch(&mut self, lane: u32, number: u64, first: bool)
        requires { self.old.ranks + 1 < 2 ^ 64 }
        ensures { self.new ≡ with_branch self.old lane number first }
    {
        let note = self.of(lane, number);
        let note = Note {
            branch: Some(first),
            rank: Some(self.ranks),
            ..note
        };
        self.set(lane, number, note);
        self.ranks += 1;
    }

    /// Notes that what a lane has asked for is done.
    pub(crate) fn note_done(&mut self, lane: u32, number: u64)
        ensures { self.new ≡ with_done self.old lane number }
    {
        let note = Note {
            done: true,
            failed: false,
            until: self.now(),
            ..self.of(lane, number)
        };
        self.set(lane, number, note);
        self.set_asked(lane, None);
    }

    /// Notes that what a lane has asked for has failed.
    pub(crate) fn note_failure(&mut self, lane: u32, number: u64)
        ensures { self.new ≡ with_failure self.old lane number }
    {
        let note = Note {
            failed: true,
            ..self.of(lane, number)
        };
        self.set(lane, number, note);
    }

    /// Notes that a lane asks once more for what it has asked for.
    pub(crate) fn note_again(&mut self, lane: u32, number: u64)
        ensures { self.new ≡ with_again self.old lane number }
    {
        let note = Note {
            failed: false,
            since: self.now(),
            ..self.of(lane, number)
        };
        self.set(lane, number, note);
    }

    /// Notes when the next entry was written, in seconds after the run's beginning.
    pub(crate) fn note_time(&mut self, seconds: u64)
        ensures { self.new ≡ with_time self.old seconds }
    {
        self.seconds = Some(seconds);
    }

    /// Notes that an instruction has changed the archive.
    pub(crate) fn note_rank(&mut self, lane: u32, number: u64)
        requires { self.old.ranks + 1 < 2 ^ 64 }
        ensures { self.new ≡ with_rank self.old lane number }
    {
        let note = self.of(lane, number);
        let note = Note {
            rank: Some(self.ranks),
            ..note
        };
        self.set(lane, number, note);
        self.ranks += 1;
    }
}
