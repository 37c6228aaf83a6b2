//! Where the lanes of a run stand, by its journal.

ghost use Rattle.std.specs.Prelude.{◌≡◌};
ghost use Rattle.std.specs.Option.{option_map};
ghost use Rattle.drive_replay.specs.Following.{IsReached, life_of};
ghost use Rattle.drive_replay.specs.LaneNotes.{asked_at};
ghost use Rattle.drive_replay.specs.Standings as spec;
ghost use Rattle.farm_model.specs.Universe.{Universe};
ghost use Rattle.plan_reader.specs.CountedPlan.{CountedPlan};

use crate::follow::Follower;
use crate::steps::{here, instruction_at, moves};
use farm_core::Core;
use farm_universe::{Universe, Variant};
use plan_reader::Instruction;

/// Where a lane stands. Instructions count from 1; 0 stands for the lane's chroot.
#[derive(Clone, Copy, PartialEq, Eq)]
pub enum Standing {
    /// This was asked for, and is not done.
    Open(u64),
    /// This is what it asks for next.
    Next(u64),
    /// It waits there.
    Waits(u64),
    /// It has come to its end.
    Ended,
}

/// Tells whether nobody is asked for an instruction.
fn is_quiet(instruction: Option<&Instruction>) -> bool
    ensures { result ≡ spec.is_quiet (option_map (λ x. x.now) instruction.entry) }
{
    matches!(
        instruction,
        Some(Instruction::Wait(_) | Instruction::When { .. })
    )
}

/// Takes a lane past what nobody is asked for, so many instructions at most.
#[tactic(auto, using(crate::proofs::Standings::passed_next))]
fn pass(core: &mut Core, lane: u32, most: usize)
    ensures { core.new ≡ spec.passed most core.old lane }
{
    for _ in 0..most {
        if !is_quiet(here(core, lane)) || moves(core, lane).is_none() {
            return;
        }
    }
}

/// How many instructions a lane has.
fn length_of(core: &Core, lane: u32) -> usize
    ensures { result ≡ spec.length_of core.now lane }
{
    let plan = core.plan();
    if lane as usize >= plan.lanes() {
        return 0;
    }
    plan.lane(lane as usize).instructions().len()
}

/// What an unpack with this pick has cost; nothing where the universe has no such variant.
fn pick_cost(universe: &Universe, variant: Variant) -> u64
    ensures { result ≡ spec.pick_cost universe.now variant }
{
    if variant.name < universe.names() && variant.bit < universe.variants(variant.name) {
        return 1 + universe.size(variant) / 1024;
    }
    0
}

/// What an unpack has cost that was taken with its pick; nothing of any other instruction.
fn taken_cost(universe: &Universe, instruction: Option<&Instruction>, pick: Option<u32>) -> u64
    ensures { result
        ≡ spec.taken_cost universe.now (option_map (λ x. x.now) instruction.entry) pick }
{
    match (instruction, pick) {
        (Some(Instruction::Unpack { name, .. }), Some(bit)) => {
            pick_cost(universe, Variant { name: *name, bit })
        }
        _ => 0,
    }
}

impl Follower<'_> {
    /// How many instructions of a lane are done. What is open is not.
    pub fn place(&self, lane: u32) -> u64
        ensures { result ≡ spec.place_of (life_of self.now) lane }
    {
        match self.notes.asked(lane) {
            Some(number) => number.saturating_sub(1),
            None => u64::from(self.core.done(lane)),
        }
    }

    /// What is open in a lane and was taken: the cost of an unpack that has its pick.
    pub fn open_cost(&self, lane: u32) -> u64
        ensures { result ≡ spec.open_cost (life_of self.now) lane
            (asked_at self.now.notes lane) }
    {
        let Some(number) = self.notes.asked(lane) else {
            return 0;
        };
        let instruction = instruction_at(self.core.plan(), lane, number.saturating_sub(1));
        taken_cost(
            self.core.universe(),
            instruction,
            self.notes.of(lane, number).pick,
        )
    }

    /// What a lane has spent on what is done.
    pub fn spent(&self, lane: u32) -> u64
        ensures { result ≡ spec.spent_of (life_of self.now) lane }
    {
        self.core.spent(lane).saturating_sub(self.open_cost(lane))
    }

    fn is_free(&self, lane: u32) -> bool
        ensures { result ≡ spec.is_free (life_of self.now) lane }
    {
        self.notes.of(lane, 0).done && self.notes.asked(lane).is_none()
    }

    fn rest_lane(&mut self, lane: u32)
        ensures { life_of self.new ≡ spec.lane_rested (life_of self.old) lane }
    {
        if self.is_free(lane) {
            let most = length_of(&self.core, lane);
            pass(&mut self.core, lane, most);
        }
    }

    #[tactic(auto, using(crate::proofs::Standings::rested_next))]
    fn rest_lanes(&mut self)
        ensures { life_of self.new ≡ spec.rested (life_of self.old) }
    {
        let lanes = self.core.plan().lanes();
        for lane in 0..lanes {
            self.rest_lane(lane as u32);
        }
    }

    /// Takes each lane that has nothing open past what nobody is asked for: waits that let it pass,
    /// and branches.
    pub fn rest(&mut self)
        ensures rested { life_of self.new ≡ spec.rested (life_of self.old) }
        ensures reached { (u : Universe) (p : CountedPlan) → IsReached u p self.old.core
            → IsReached u p self.new.core }
    {
        self.rest_lanes();
    }

    /// Where a lane stands, once all lanes have gone past what nobody is asked for.
    pub fn standing(&self, lane: u32) -> Standing
        ensures { result ≡ spec.standing (life_of self.now) lane }
    {
        if let Some(number) = self.notes.asked(lane) {
            return Standing::Open(number);
        }
        let Some(instruction) = here(&self.core, lane) else {
            return Standing::Ended;
        };
        if !self.notes.of(lane, 0).done {
            return Standing::Next(0);
        }
        let number = u64::from(self.core.done(lane)) + 1;
        match instruction {
            Instruction::Wait(_) => Standing::Waits(number),
            _ => Standing::Next(number),
        }
    }
}
