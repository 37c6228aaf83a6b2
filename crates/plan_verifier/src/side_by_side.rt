//! The walks over the lanes of a plan, side by side.

ghost use Rattle.std.specs.Prelude.{◌≡◌, ◌<◌, length, IfOk};
ghost use Rattle.farm_model.specs.Universe.{Universe};
ghost use Rattle.plan_model.specs.Known.{Rows};
ghost use Rattle.plan_model.specs.Plan as model;
ghost use Rattle.plan_verifier.specs.SideBySide.{AreWalks};
ghost use Rattle.plan_verifier.specs.Stage.{IsWhole};
ghost use Rattle.plan_verifier.specs.Walk.{Walked};

use crate::stage::Stage;
use crate::walk::{WalkError, walk};
use known_rows::KnownWords;
use plan_reader::Plan;
use rayon::prelude::*;
use std::alloc::{AllocError, Global};
use std::thread::Threads;

/// What walks over lanes, by their numbers.
pub trait LaneWalks {
    // what the walks rest on
    ghost ready: { Self → Type 0 };
    // over which universe and plan they go, and what the plan's lanes know
    ghost universe: { Self → Universe };

    ghost plan: { Self → model.Plan };

    ghost rows: { Self → Rows };

    /// What the walk over a lane comes to.
    ///
    /// # Errors
    ///
    /// As those of [`walk`].
    fn walk_lane(&self, alloc: Global, number: usize) -> Result<u64, WalkError>
        requires ready { ready self.now }
        requires there { number < length (plan self.now) }
        ensures { Walked (universe self.now) (plan self.now) (rows self.now) number result };
}

impl<K: KnownWords> LaneWalks for Stage<'_, K> {
    ghost ready = { λ stage. IsWhole K.known stage };

    ghost universe = { λ stage. stage.universe.now };

    ghost plan = { λ stage. stage.plan.now.lanes };

    ghost rows = { λ stage. (K.known stage.known.now).rows };

    fn walk_lane(&self, alloc: Global, number: usize) -> Result<u64, WalkError> {
        walk(alloc, self, number)
    }
}

/// A plan of fewer events is walked over by one thread: to wake others would take longer.
const EVENTS_FOR_THREADS: usize = 4096;

/// The fewest lanes that one thread walks over.
pub fn lanes_at_once(plan: &Plan) -> usize {
    if plan.count() < EVENTS_FOR_THREADS {
        plan.lanes()
    } else {
        1
    }
}

/// Walks over so many lanes, by as many threads as there are processors, but by one over each
/// `least` of them.
///
/// # Errors
///
/// [`AllocError`] where memory is refused. What a walk comes to stands in its place of the list.
pub fn walk_each<R: Threads + Sync, W: LaneWalks + Sync>(
    rt: &R,
    alloc: Global,
    walks: &W,
    lanes: usize,
    least: usize,
) -> Result<Vec<Result<u64, WalkError>>, AllocError>
    requires ready { W.ready walks.now }
    requires lanes { lanes ≡ length (W.plan walks.now) }
    ensures { IfOk result (λ all. AreWalks
        (Walked (W.universe walks.now) (W.plan walks.now) (W.rows walks.now)) lanes all.items) }
{
    (0..lanes)
        .into_par_iter()
        .with_min_len(least)
        .map(
            move |number: usize| -> Result<u64, WalkError>
                requires ready { W.ready walks.now }
                requires there { number < length (W.plan walks.now) }
                ensures { Walked (W.universe walks.entry.now) (W.plan walks.entry.now)
                    (W.rows walks.entry.now) number result }
            { walks.walk_lane(alloc, number) },
        )
        .collect::<Vec<Result<u64, WalkError>>>(rt, alloc)
}
