//! A farm at work.

ghost use Rattle.std.specs.Prelude.{◌≡◌, ◌≢◌, ℕ, ◌<◌, IfOk, length};
ghost use Rattle.chroot_state.specs.Held.{IsHeld};
ghost use Rattle.farm_archive.specs.Kept.{numbered};
ghost use Rattle.farm_core.specs.Farm.{AreOpened, with_state, chroot_in, step_told, state_after};
ghost use Rattle.farm_core.specs.declared.traps.Traps.TheVariants.{Unmet};
ghost use Rattle.farm_model.specs.Packages.{variant, word_has};
ghost use Rattle.farm_model.specs.declared.types.Trap.{Trap};
ghost use Rattle.plan_model.specs.Common.{count, archive, start, step, is_finished, lane_state, Trapped, IsPlan};

use crate::answer::Step;
use crate::event::take_turn;
use crate::lane::LaneRun;
use crate::traps::Traps;
use chroot_state::Chroot;
use farm_archive::{PlainArchive, Publication};
use farm_universe::Universe;
use plan_reader::Plan;
use std::alloc::{AllocError, Global};
use std::marker::Model;

/// A farm at work: where each lane of a plan stands, and the archive. A contract sees the universe,
/// the plan, and the state that the definition of a run has.
#[derive(Drop)]
pub struct Core<'a> {
    universe: &'a Universe,
    plan: &'a Plan,
    lanes: Vec<LaneRun>,
    archive: PlainArchive,
}

impl<'a> Model for Core<'a> {
    ghost use Rattle.farm_core.specs.Farm.{Farm, state_of, IsCore};

    ghost Value = { Farm };

    ghost view = { λ c. record {
      universe = c.universe.now;
      plan = c.plan.now;
      state = state_of c.lanes.items c.archive;
    } };

    ghost invariant = { λ c. IsCore c.universe.now c.plan.now.lanes c.lanes.items c.archive };
}

fn open_lanes(alloc: Global, universe: &Universe, plan: &Plan) -> Result<Vec<LaneRun>, AllocError>
    requires { IsPlan universe.now plan.now.lanes }
    ensures { IfOk result (λ lanes. AreOpened universe.now plan.now.lanes lanes.items) }
{
    let mut lanes = Vec::new(alloc);
    for number in 0..plan.lanes() {
        lanes.push(LaneRun::open(alloc, universe, plan.lane(number))?)?;
    }
    Ok(lanes)
}

impl<'a> Core<'a> {
    /// Puts each lane of a plan at its beginning, before the initial archive. The memory that the
    /// steps need is taken here.
    pub fn open(
        alloc: Global,
        universe: &'a Universe,
        plan: &'a Plan,
    ) -> Result<Core<'a>, AllocError>
        requires plan { IsPlan universe.now plan.now.lanes }
        requires counted { plan.now.count ≡ count universe.now plan.now.lanes }
        ensures { IfOk result (λ core. core ≡ record {
          universe = universe.now;
          plan = plan.now;
          state = start universe.now plan.now.lanes;
        }) }
    {
        let _names = universe.names();
        let lanes = open_lanes(alloc, universe, plan)?;
        let archive = PlainArchive::open(alloc, universe, plan)?;
        Ok(Core {
            universe,
            plan,
            lanes,
            archive,
        })
    }

    /// Takes the turn of a lane, by its number. It takes no memory, and where the answer is not
    /// [`Step::Moved`] nothing has changed.
    pub fn step(&mut self, lane: u32) -> Step
        ensures told { result
            ≡ step_told (step self.old.universe self.old.plan.lanes self.old.state lane) }
        ensures after { self.new ≡ with_state self.old
            (state_after self.old.state
            (step self.old.universe self.old.plan.lanes self.old.state lane)) }
    {
        self.take(lane, Traps::Tested)
    }

    /// Takes the turn of a lane that meets no trap, and tests for none. Else as [`Core::step`].
    pub fn step_untested(&mut self, lane: u32) -> Step
        requires free { (trap : Trap)
            → step self.old.universe self.old.plan.lanes self.old.state lane ≢ Trapped trap }
        ensures told { result
            ≡ step_told (step self.old.universe self.old.plan.lanes self.old.state lane) }
        ensures after { self.new ≡ with_state self.old
            (state_after self.old.state
            (step self.old.universe self.old.plan.lanes self.old.state lane)) }
    {
        self.take(lane, Traps::Unmet)
    }

    /// Takes the turn of a lane.
    fn take(&mut self, lane: u32, traps: Traps) -> Step
        requires free { traps ≡ Unmet → (trap : Trap)
            → step self.old.universe self.old.plan.lanes self.old.state lane ≢ Trapped trap }
        ensures told { result
            ≡ step_told (step self.old.universe self.old.plan.lanes self.old.state lane) }
        ensures after { self.new ≡ with_state self.old
            (state_after self.old.state
            (step self.old.universe self.old.plan.lanes self.old.state lane)) }
    {
        if lane as usize >= self.plan.lanes() {
            return Step::Unknown;
        }
        take_turn(
            self.universe,
            self.plan,
            &mut self.lanes,
            &mut self.archive,
            lane,
            traps,
        )
    }

    /// Tells whether no lane has an instruction left.
    pub fn finished(&self) -> bool
        ensures { result ≡ is_finished self.now.plan.lanes self.now.state }
    {
        for number in 0..self.plan.lanes() {
            let done = self.lanes[number].done as usize;
            if done < self.plan.lane(number).instructions().len() {
                return false;
            }
        }
        true
    }

    /// The universe.
    pub fn universe(&self) -> &'a Universe
        ensures { result.now ≡ self.now.universe }
    {
        self.universe
    }

    /// The plan.
    pub fn plan(&self) -> &'a Plan
        ensures { result.now ≡ self.now.plan }
    {
        self.plan
    }

    /// The place of a lane, the number of instructions before it; 0 for a number that is no lane's.
    pub fn done(&self, lane: u32) -> u32
        ensures { result ≡ (lane_state self.now.state lane).done }
    {
        match self.lanes.get(lane as usize) {
            Some(run) => run.done,
            None => 0,
        }
    }

    /// What a lane has spent; nothing for a number that is no lane's.
    pub fn spent(&self, lane: u32) -> u64
        ensures { result ≡ (lane_state self.now.state lane).spent }
    {
        match self.lanes.get(lane as usize) {
            Some(run) => run.spent,
            None => 0,
        }
    }

    /// The chroot of a lane.
    pub fn chroot(&self, lane: u32) -> &Chroot
        requires { lane < length self.now.plan.lanes }
        ensures chroot { result.now ≡ chroot_in self.now lane }
        ensures held { IsHeld self.now.universe result.now }
    {
        &self.lanes[lane as usize].chroot
    }

    /// The word of a name: bit b is set where the archive has variant b of it.
    #[tactic(auto, using(crate::proofs::Views::word_is))]
    pub fn word(&self, name: u32) -> u64
        ensures { (b : ℕ) → word_has result b
            ≡ archive self.now.universe self.now.state.published (variant name b) }
    {
        self.archive.word(name)
    }

    /// What was published, in its order.
    pub fn history(&self) -> &[Publication]
        ensures { result.now ≡ numbered 0 self.now.state.published }
    {
        self.archive.history()
    }
}
