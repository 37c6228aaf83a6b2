//! What a lane's chroot may hold along the lane, with the branches that it takes.

ghost use Rattle.std.specs.Prelude.{◌≡◌, ℕ, OnOk};
ghost use Rattle.may_rows.specs.Words.{Words, AreWords};
ghost use Rattle.plan_model.specs.Plan as plan;
ghost use Rattle.plan_verifier.specs.Branch.{forgotten, turned, IsBranchEnd, IsBehindEnd};

use farm_universe::Universe;
use may_rows::{Doubts, MayHold};
use std::alloc::AllocError;
use std::mem;

/// In which branch of which `when`, by its place, a lane stands, and the map that is needed again.
#[derive(Drop)]
pub enum Branch {
    /// In no branch.
    Outside,
    /// In the first one: what may be held ahead of the `when`.
    First { at: u32, ahead: MayHold },
    /// In the second one: what may be held at the end of the first one.
    Second { at: u32, first: MayHold },
}

/// What a lane's chroot may hold at a place.
#[derive(Drop)]
pub struct LaneMay {
    pub here: MayHold,
    pub doubts: Doubts,
    pub branch: Branch,
}

impl LaneMay {
    /// Goes behind a `when`, whose branches begin with what may be held ahead of it.
    pub fn begin(&mut self, at: u32) -> Result<(), AllocError>
        ensures { OnOk result (self.new ≡ record {
          here = self.old.here;
          doubts = self.old.doubts;
          branch = Branch.First at self.old.here;
        }) }
    {
        let ahead = self.here.copy()?;
        self.branch = Branch::First { at, ahead };
        Ok(())
    }

    /// Goes behind an `else`: to the beginning of the second branch.
    pub fn turn(&mut self)
        ensures { self.new ≡ turned self.old self.old.branch }
    {
        match mem::replace(&mut self.branch, Branch::Outside) {
            Branch::First { at, ahead } => {
                let first = mem::replace(&mut self.here, ahead);
                self.branch = Branch::Second { at, first };
            }
            Branch::Outside | Branch::Second { .. } => {}
        }
        self.doubts.forget();
    }

    /// Goes behind an `end`: joins what may be held at the ends of both branches. Where some name
    /// is in different phases there, gives the place of the `when`.
    pub fn end(&mut self, universe: &Universe) -> Option<u32>
        requires here { AreWords universe.now self.old.here }
        requires first { (at : ℕ) (first : Words) → self.old.branch ≡ Branch.Second at first
            → AreWords universe.now first }
        ensures { (of : plan.Lane) → IsBranchEnd universe.now of self.old
            → IsBehindEnd universe.now of self.old self.new result }
    {
        self.doubts.forget();
        match mem::replace(&mut self.branch, Branch::Outside) {
            Branch::Second { at, first } => {
                if self.here.phases_differ(universe, &first) {
                    return Some(at);
                }
                self.here.join(universe, &first);
                None
            }
            Branch::Outside | Branch::First { .. } => None,
        }
    }
}
