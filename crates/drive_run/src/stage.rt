//! Where the lanes of a run are.

ghost use Rattle.std.specs.Prelude.{◌≡◌, map};
ghost use Rattle.drive_run.specs.LaneStages as spec;

use farm_universe::Variant;
use std::alloc::{AllocError, Global};
use std::marker::Model;

/// Where a lane is.
#[derive(Clone, Copy)]
pub enum Stage {
    /// It has no chroot yet.
    Closed,
    /// It is ahead of its instruction.
    Ahead,
    /// It may take its turn: what its instruction says is done, or asked of nobody.
    Due,
    /// It has unpacked this variant by the instruction of this number, which is not done outside.
    Unpacked { number: u32, variant: Variant },
    /// It waits, and has looked when the bell had rung so often.
    Waiting(u64),
    /// It goes on no more.
    Ended,
}

/// Where the lanes of a run are, and how often a bell has rung for those that wait.
#[derive(Drop)]
pub struct Stages {
    lanes: Vec<Stage>,
    rings: u64,
}

impl Model for Stages {
    ghost use Rattle.drive_run.specs.LaneStages.{LaneStages};

    ghost Value = { LaneStages };

    ghost view = { λ s. record { lanes = s.lanes.items; rings = s.rings } };
}

impl Stage {
    /// Where the lane is once the bell has rung so often: one that waits is due where it has rung
    /// since it looked.
    fn seen(self, rings: u64) -> Stage
        ensures { result ≡ spec.seen rings self }
    {
        match self {
            Stage::Waiting(at) if at != rings => Stage::Due,
            stage => stage,
        }
    }

    /// Where the lane goes from there, once what it has asked for is done.
    pub fn passed(self) -> Stage
        ensures { result ≡ spec.passed self }
    {
        match self {
            Stage::Ahead => Stage::Due,
            _ => Stage::Ahead,
        }
    }
}

/// Brings all lanes to their beginning.
fn close_all(lanes: &mut [Stage])
    ensures { lanes.new ≡ map (λ stage. Stage.Closed) lanes.old }
{
    for stage in lanes.iter_mut() {
        *stage = Stage::Closed;
    }
}

impl Stages {
    /// So many lanes, none of which has a chroot.
    pub fn new(alloc: Global, lanes: usize) -> Result<Stages, AllocError> {
        Ok(Stages {
            lanes: vec![in alloc; Stage::Closed; lanes]?,
            rings: 0,
        })
    }

    /// Where a lane was left.
    fn at(&self, lane: u32) -> Stage
        ensures { result ≡ spec.stage_at self.now lane }
    {
        match self.lanes.get(lane as usize) {
            Some(stage) => *stage,
            None => Stage::Ended,
        }
    }

    /// Where a lane is. One that waits is due where the bell has rung since it looked.
    pub fn of(&self, lane: u32) -> Stage
        ensures { result ≡ spec.stage_of self.now lane }
    {
        self.at(lane).seen(self.rings)
    }

    /// Brings a lane to another stage.
    pub fn set(&mut self, lane: u32, stage: Stage)
        ensures { self.new ≡ spec.with_stage self.old lane stage }
    {
        if let Some(place) = self.lanes.get_mut(lane as usize) {
            *place = stage;
        }
    }

    /// Lets a lane wait until the bell rings.
    pub fn wait(&mut self, lane: u32)
        ensures { self.new ≡ spec.with_stage self.old lane (Stage.Waiting self.old.rings) }
    {
        self.set(lane, Stage::Waiting(self.rings));
    }

    /// Rings the bell: something is published.
    pub fn ring(&mut self)
        ensures { self.new.lanes ≡ self.old.lanes }
    {
        self.rings = self.rings.wrapping_add(1);
    }

    /// Brings all lanes to their beginning: none has a chroot.
    pub fn close(&mut self)
        ensures { self.new ≡ spec.all_closed self.old }
    {
        close_all(&mut self.lanes);
    }
}
