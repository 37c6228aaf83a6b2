//! The walk along a lane, up to its first hazard, and what a `remove` may leave unpacked with an
//! entry that nothing meets.

ghost use Rattle.std.specs.Prelude.{◌≡◌, ◌<◌, ◌+◌, ◌++◌, None, IfOk, IfSome, OnOk, length};
ghost use Rattle.plan_model.specs.Plan.{lane};
ghost use Rattle.plan_verifier.specs.Branch.{IsAt};
ghost use Rattle.plan_verifier.specs.Stage.{IsWhole, OfStage, of_stage};
ghost use Rattle.explain_reasons.specs.Removals as spec;

use crate::held::Phase;
use crate::place::{Place, lane_length};
use crate::types::{Pushed, Reason};
use farm_universe::Trap;
use known_rows::KnownWords;
use plan_reader::Instruction;
use plan_verifier::walk::{advance, walk_to};
use plan_verifier::{LaneMay, Stage, WalkError};
use std::alloc::{AllocError, Global};

/// An instruction that may leave an unpacked package without what it needs, by its lane and its
/// place there, and whose entry is left unmet.
#[derive(Clone, Copy)]
pub struct Left {
    pub lane: usize,
    pub place: usize,
    pub reason: Reason,
}

/// Puts a warning behind others of the first entry that the instruction at a place of a lane may
/// leave unmet, where it is a `remove`. `may` is what may be held there.
fn push_left_at<K: KnownWords>(
    alloc: Global,
    stage: &Stage<'_, K>,
    number: usize,
    place: usize,
    may: &LaneMay,
    left: &mut Vec<Left>,
) -> Pushed
    requires stage { IsWhole K.known stage.now }
    requires lane { number < length stage.now.plan.now.lanes }
    requires at { OfStage K.known stage.now IsAt number place may.now }
    ensures { OnOk result (left.new.items
        ≡ left.old.items ++ of_stage K.known stage.now spec.place_left number place) }
{
    let Some(Instruction::Remove(members)) = stage.plan.instruction(number, place) else {
        return Ok(());
    };
    let at = Place {
        alloc,
        universe: stage.universe,
        tables: stage.tables,
        lane: stage.plan.lane(number),
        state: &may.here,
    };
    let found = at.list_needing(members.as_slice(), Phase::Unpacked, Phase::Present)?;
    if let Some(reason) = found.first() {
        left.push(Left {
            lane: number,
            place,
            reason: *reason,
        })?;
    }
    Ok(())
}

/// A lane's first hazard: the place of the instruction at which the walk ends, from 0; the number,
/// from 1, of the instruction by which the lane is refused, which of branches that part is that of
/// their `when`; and the trap that the instruction may meet, none of branches that part.
#[derive(Clone, Copy)]
pub struct LaneHazard {
    pub place: usize,
    pub instruction: u32,
    pub trap: Option<Trap>,
}

/// Goes on behind the instruction at a place of a lane, or gives its hazard.
fn pass<K: KnownWords>(
    stage: &Stage<'_, K>,
    number: usize,
    place: usize,
    may: &mut LaneMay,
) -> Result<Option<LaneHazard>, AllocError>
    requires stage { IsWhole K.known stage.now }
    requires lane { number < length stage.now.plan.now.lanes }
    requires place { place < length (lane stage.now.plan.now.lanes number).instructions }
    requires at { OfStage K.known stage.now IsAt number place may.old }
    ensures hazard { IfOk result (λ found. found
        ≡ of_stage K.known stage.now spec.place_hazard number place) }
    ensures place { IfOk result (λ found. IfSome found (λ it. it.place ≡ place)) }
    ensures behind { IfOk result (λ found. found ≡ None
        → OfStage K.known stage.now IsAt number (place + 1) may.new) }
{
    let (instruction, trap) = match advance(stage, number, place, may) {
        Ok(()) => return Ok(None),
        Err(
            WalkError::Unsafe {
                instruction,
                trap,
                ..
            },
        ) => (instruction, Some(trap)),
        Err(WalkError::Uneven { instruction, .. }) => (instruction, None),
        Err(WalkError::Memory) => return Err(AllocError),
    };
    Ok(Some(LaneHazard {
        place,
        instruction,
        trap,
    }))
}

/// Looks along a lane: gives its first hazard, if it has one, and puts behind `left` a warning of
/// each `remove`, up to the instruction at which the walk ends, that may leave an unpacked package
/// with an entry of its Depends or Pre-Depends that a removed one may satisfy and nothing
/// configured surely meets: of the first such package and entry.
pub fn look_along<K: KnownWords>(
    alloc: Global,
    stage: &Stage<'_, K>,
    number: usize,
    left: &mut Vec<Left>,
) -> Result<Option<LaneHazard>, AllocError>
    requires stage { IsWhole K.known stage.now }
    requires lane { number < length stage.now.plan.now.lanes }
    ensures hazard { IfOk result (λ found. found
        ≡ of_stage K.known stage.now spec.lane_hazard number) }
    ensures left { OnOk result (left.new.items ≡ left.old.items
        ++ of_stage K.known stage.now spec.lane_left number) }
{
    // Ahead of the first instruction it can end for want of memory alone.
    let Ok(mut may) = walk_to(alloc, stage, number, 0) else {
        return Err(AllocError);
    };
    for place in 0..lane_length(stage.plan, number) {
        push_left_at(alloc, stage, number, place, &may, left)?;
        match pass(stage, number, place, &mut may)? {
            None => {}
            Some(end) => return Ok(Some(end)),
        }
    }
    Ok(None)
}
