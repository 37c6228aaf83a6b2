//! The walk over each lane of a plan.

ghost use Rattle.std.specs.Prelude.{◌≡◌, ◌<◌, length};
ghost use Rattle.plan_model.specs.Common.{KeepsRows, lane, Meets, Parts, IsSound};
ghost use Rattle.plan_verifier.specs.Costs.{AreWalked, IsWalked, IsToldUnsafe};
ghost use Rattle.plan_verifier.specs.SideBySide.{AreWalks};
ghost use Rattle.plan_verifier.specs.Stage.{IsWhole, OfStage};
ghost use Rattle.plan_verifier.specs.Walk.{Walked};
ghost use Rattle.known_rows.specs.KnownRows.{rows_of};

use crate::refusal::Refusal;
use crate::side_by_side::{lanes_at_once, walk_each};
use crate::stage::Stage;
use crate::walk::WalkError;
use farm_universe::{Trap, Universe};
use known_rows::{Known, KnownWords};
use plan_reader::Plan;
use sat_rows::Tables;
use std::alloc::Global;
use std::thread::Threads;

/// The costs that the walks over the lanes came to, or the error of the first lane that has one.
fn costs_of<K: KnownWords>(
    alloc: Global,
    stage: &Stage<'_, K>,
    walks: &[Result<u64, WalkError>],
) -> Result<Vec<u64>, WalkError>
    requires walks { AreWalks (OfStage K.known stage.now Walked) (length stage.now.plan.now.lanes) walks.now }
    ensures { OfStage K.known stage.now AreWalked result }
{
    let mut costs = Vec::new(alloc);
    for number in 0..stage.plan.lanes() {
        match walks[number] {
            Ok(cost) => costs.push(cost)?,
            Err(error) => return Err(error),
        }
    }
    Ok(costs)
}

/// What each lane costs at most, in steps, where each instruction is safe under these known rows,
/// whoever made them. The lanes of a large plan are walked over by as many threads as there are
/// processors; which error is told does not go by which of them ends first.
///
/// # Errors
///
/// Of the first lane that has an unsafe instruction: [`WalkError::Unsafe`] with the first one and
/// the first trap that it may meet, or [`WalkError::Uneven`] where that is an `end` of branches
/// that leave some name in different phases. [`WalkError::Memory`] where memory ran out.
pub fn walk_lanes<K: KnownWords + Sync>(
    rt: &(impl Threads + Sync),
    alloc: Global,
    stage: &Stage<'_, K>,
) -> Result<Vec<u64>, WalkError>
    requires stage { IsWhole K.known stage.now }
    ensures { OfStage K.known stage.now AreWalked result }
{
    let least = lanes_at_once(stage.plan);
    let walks = walk_each(rt, alloc, stage, stage.plan.lanes(), least)?;
    costs_of(alloc, stage, &walks)
}

/// The refusal of a lane of this name, whose instruction of this number may meet a trap.
fn unsafe_refusal(alloc: Global, name: &[u8], instruction: u32, trap: Trap) -> Refusal
    ensures { IsToldUnsafe name.now instruction (Meets trap) result }
{
    match Vec::from_slice(alloc, name) {
        Ok(lane) => Refusal::Unsafe {
            lane,
            instruction,
            trap,
        },
        Err(_) => Refusal::Memory,
    }
}

/// The refusal of a lane of this name, of which the branches of the `when` of this number part.
fn uneven_refusal(alloc: Global, name: &[u8], instruction: u32) -> Refusal
    ensures { IsToldUnsafe name.now instruction Parts result }
{
    match Vec::from_slice(alloc, name) {
        Ok(lane) => Refusal::Uneven { lane, instruction },
        Err(_) => Refusal::Memory,
    }
}

/// What [`walk_lanes`] gives, or its error as a refusal, by the lane's name.
///
/// # Errors
///
/// Of the first lane that has an unsafe instruction: [`Refusal::Unsafe`] with the first one and the
/// first trap that it may meet, or [`Refusal::Uneven`] with the `when` whose branches leave some
/// name in different phases, found at their `end`. [`Refusal::Memory`] where memory ran out.
pub fn check_lanes(
    rt: &(impl Threads + Sync),
    alloc: Global,
    universe: &Universe,
    tables: &Tables,
    plan: &Plan,
    known: &Known,
) -> Result<Vec<u64>, Refusal>
    requires sound { IsSound universe.now plan.now.lanes }
    requires tables { tables.now ≡ universe.now }
    requires of_universe { known.now.universe ≡ universe.now }
    requires of_plan { known.now.plan ≡ plan.now.lanes }
    requires keeps { KeepsRows universe.now plan.now.lanes (rows_of known.now) }
    ensures { IsWalked universe.now plan.now.lanes (rows_of known.now) result }
{
    let stage = Stage {
        universe,
        tables,
        plan,
        outputs: known.outputs(),
        known,
    };
    match walk_lanes(rt, alloc, &stage) {
        Ok(costs) => Ok(costs),
        Err(
            WalkError::Unsafe {
                lane,
                instruction,
                trap,
            },
        ) => {
            let name = plan.lane(lane as usize).name();
            Err(unsafe_refusal(alloc, name, instruction, trap))
        }
        Err(WalkError::Uneven { lane, instruction }) => {
            let name = plan.lane(lane as usize).name();
            Err(uneven_refusal(alloc, name, instruction))
        }
        Err(WalkError::Memory) => Err(Refusal::Memory),
    }
}
