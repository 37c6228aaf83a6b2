//! What is known of the lanes before they start.

ghost use Rattle.std.specs.Prelude.{◌≡◌, ◌<◌, ℕ, true, IfOk};
ghost use Rattle.drive_replay.specs.LaneNotes.{note_at};
ghost use Rattle.drive_run.specs.DoneBefore.{AreBelow};
ghost use Rattle.drive_run.specs.Questions as spec;

use crate::question::Question;
use drive_replay::{Note, Notes};
use plan_verifier::Accepted;
use std::alloc::{AllocError, Global};

/// The name of a lane, that of its base chroot, and the least number that it may ask for: what
/// stands before it was done in an earlier run.
#[derive(Drop)]
pub struct LaneWords {
    pub name: Vec<u8>,
    pub chroot: Vec<u8>,
    pub least: u64,
}

/// What is known of the lanes before they start: their words; the words of each recipe beside its
/// name; and what an earlier journal notes.
#[derive(Drop)]
pub struct Known {
    pub lanes: Vec<LaneWords>,
    pub recipes: Vec<Vec<u8>>,
    pub notes: Notes,
}

/// The number after the last one of a lane that is noted as done, of so many.
fn least_of(notes: &Notes, lane: u32, count: usize) -> u64
    ensures { (n : ℕ) → n < count → (note_at notes.now lane n).done ≡ true → n < result }
{
    let mut least = 0;
    for number in 0..count {
        if notes.of(lane, number as u64).done {
            least = number as u64 + 1;
        }
    }
    least
}

/// The name of a lane's base chroot.
fn chroot_of(accepted: &Accepted, base: u32) -> &[u8] {
    let universe = accepted.universe();
    if base < universe.bases() {
        universe.base(base).name()
    } else {
        b""
    }
}

/// Gives the words of each lane, in file order. What is noted as done stands before the least
/// number of its lane.
pub fn lane_words(
    alloc: Global,
    accepted: &Accepted,
    notes: &Notes,
) -> Result<Vec<LaneWords>, AllocError>
    ensures { IfOk result (λ words. AreBelow accepted.now.plan notes.now words.items) }
{
    let plan = accepted.plan();
    let mut words = Vec::new(alloc);
    for number in 0..plan.lanes() {
        let lane = plan.lane(number);
        words.push(LaneWords {
            name: Vec::from_slice(alloc, lane.name())?,
            chroot: Vec::from_slice(alloc, chroot_of(accepted, lane.base()))?,
            least: least_of(notes, number as u32, lane.instructions().len() + 1),
        })?;
    }
    Ok(words)
}

impl Known {
    /// The name of a lane.
    pub fn lane(&self, lane: u32) -> &[u8]
        ensures { result.now ≡ spec.lane_name self.now lane }
    {
        match self.lanes.get(lane as usize) {
            Some(words) => words.name.as_slice(),
            None => b"",
        }
    }

    /// The name of a lane's base chroot.
    pub fn chroot(&self, lane: u32) -> &[u8]
        ensures { result.now ≡ spec.chroot_name self.now lane }
    {
        match self.lanes.get(lane as usize) {
            Some(words) => words.chroot.as_slice(),
            None => b"",
        }
    }

    /// What an earlier journal notes of a question.
    pub fn noted(&self, question: Question<'_>) -> Note
        ensures { result ≡ spec.noted self.now (spec.wanted question.entry) }
    {
        self.notes
            .of(question.place.lane, u64::from(question.number()))
    }
}
