//! The core at work, as a timed run asks of it.

ghost use Rattle.std.specs.Prelude.{◌≡◌, ◌<◌, true, IfOk, length};
ghost use Rattle.plan_model.specs.Common.{count, Moved, State, start, step, IsPlan};

use crate::held::may_pass;
use crate::waits::{instruction_at, rests_behind, waited, waits_for};
use farm_core::{Core, Step};
use farm_lookup::Candidates;
use farm_universe::{Universe, Variant};
use plan_reader::{Instruction, Plan};
use std::alloc::{AllocError, Global};
use timed_run::Farm;

/// The core of a farm, whose lanes take their turns in a timed run, and the names that may have what
/// a wait is for.
#[derive(Drop)]
pub struct AtWork<'a> {
    core: Core<'a>,
    candidates: Candidates,
    ghost same: { candidates ≡ core.universe },
}

impl<'a> AtWork<'a> {
    /// Puts a core to work in the state that it has come to.
    pub fn of(alloc: Global, core: Core<'a>) -> Result<AtWork<'a>, AllocError>
        ensures { IfOk result (λ w. w.core ≡ core.entry) }
    {
        let candidates = Candidates::of(alloc, core.universe())?;
        Ok(AtWork { core, candidates })
    }

    /// Puts each lane of a plan at its beginning.
    pub fn open(
        alloc: Global,
        universe: &'a Universe,
        plan: &'a Plan,
    ) -> Result<AtWork<'a>, AllocError>
        requires plan { IsPlan universe.now plan.now.lanes }
        requires counted { plan.now.count ≡ count universe.now plan.now.lanes }
        ensures universe { IfOk result (λ w. w.core.universe ≡ universe.now) }
        ensures plan { IfOk result (λ w. w.core.plan ≡ plan.now) }
        ensures state { IfOk result (λ w. w.core.state ≡ start universe.now plan.now.lanes) }
    {
        let core = Core::open(alloc, universe, plan)?;
        AtWork::of(alloc, core)
    }

    /// Tells whether a lane stands at a wait that nothing in the archive lets pass.
    fn is_held_up(&self, lane: usize) -> bool
        requires { lane < length self.now.core.plan.lanes }
        ensures { result ≡ true → (next : State) → step self.now.core.universe
            self.now.core.plan.lanes self.now.core.state lane ≡ Moved next → ⊥ }
    {
        let plan = self.core.plan();
        let _lanes = plan.lanes();
        let Some(instruction) = instruction_at(plan, lane, self.core.done(lane as u32)) else {
            return false;
        };
        match waited(instruction) {
            Some(entry) => !may_pass(&self.core, &self.candidates, entry),
            None => false,
        }
    }
}

impl Farm for AtWork<'_> {
    ghost universe = { λ w. w.core.universe };

    ghost plan = { λ w. w.core.plan.lanes };

    ghost state = { λ w. w.core.state };

    fn step(&mut self, lane: usize) -> bool {
        if lane >= self.core.plan().lanes() {
            return false;
        }
        if self.is_held_up(lane) {
            return false;
        }
        matches!(self.core.step_untested(lane as u32), Step::Moved)
    }

    fn done(&self, lane: usize) -> u32 {
        let _lanes = self.core.plan().lanes();
        self.core.done(lane as u32)
    }

    fn spent(&self, lane: usize) -> u64 {
        let _lanes = self.core.plan().lanes();
        self.core.spent(lane as u32)
    }

    fn published(&self) -> usize {
        self.core.history().len()
    }

    fn output_behind(&self, published: usize) -> Option<Variant> {
        match self.core.history().get(published) {
            Some(publication) => Some(publication.variant),
            None => None,
        }
    }

    fn gives(&self, lane: usize) -> bool {
        match instruction_at(self.core.plan(), lane, self.done(lane)) {
            Some(instruction) => matches!(instruction, Instruction::Publish(_)),
            None => false,
        }
    }

    fn stays(&self, lane: usize, variant: Variant) -> bool {
        rests_behind(
            self.core.universe(),
            self.core.plan(),
            lane,
            self.done(lane),
            variant,
        )
    }

    fn lets_pass(&self, lane: usize, place: u32, variant: Variant) -> bool {
        waits_for(self.core.universe(), self.core.plan(), lane, place, variant)
    }
}
