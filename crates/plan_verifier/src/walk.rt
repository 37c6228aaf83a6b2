//! The walk over the instructions of a lane, up to the first unsafe one.

ghost use Rattle.std.specs.Prelude.{◌≡◌, ◌<◌, ◌≤◌, ℕ, true, Some, length};
ghost use Rattle.clause_kernel.specs.Rows.{word_has};
ghost use Rattle.may_rows.specs.Walk.{AreWordsFor};
ghost use Rattle.plan_model.specs.Common.{possible, lane, instruction_at, IsInstruction};
ghost use Rattle.plan_verifier.specs.Stage.{IsWhole, OfStage, stage_rows};
ghost use Rattle.plan_verifier.specs.Branch.{IsAt};
ghost use Rattle.plan_verifier.specs.Walk.{is_plain, IsAdvanced, Walked, WalkedTo};

use crate::branch::{Branch, LaneMay};
use crate::stage::Stage;
use farm_universe::Trap;
use known_rows::KnownWords;
use may_rows::{ArchiveWords, Doubts, LaneOf, MayHold, step};
use plan_reader::Instruction;
use std::alloc::{AllocError, AllocFailed, Global};

/// Why a walk over lanes ends before their ends.
#[derive(Clone, Copy, Debug, PartialEq, Eq)]
pub enum WalkError {
    /// The instruction of this number, from 1, of the lane of this number, from 0 in file order,
    /// may meet this trap.
    Unsafe {
        lane: u32,
        instruction: u32,
        trap: Trap,
    },
    /// The branches of the `when` of this number, from 1, of the lane of this number leave some
    /// name in different phases.
    Uneven {
        lane: u32,
        instruction: u32,
    },
    /// Memory ran out.
    Memory,
}

impl From<AllocError> for WalkError {
    ghost use Rattle.plan_verifier.specs.declared.walk.WalkError.{WalkError};

    ghost from_gives = { λ _ error. error ≡ WalkError.Memory };

    fn from(_error: AllocError) -> WalkError {
        WalkError::Memory
    }
}

impl<T: Drop> From<AllocFailed<T>> for WalkError {
    ghost use Rattle.plan_verifier.specs.declared.walk.WalkError.{WalkError};

    ghost from_gives = { λ _ error. error ≡ WalkError.Memory };

    fn from(_error: AllocFailed<T>) -> WalkError {
        WalkError::Memory
    }
}

/// What of the name that an instruction unpacks, if it does, is surely in the archive at its place,
/// and what may be.
pub fn words_at<K: KnownWords>(
    stage: &Stage<'_, K>,
    number: usize,
    place: usize,
    instruction: &Instruction,
) -> ArchiveWords
    requires stage { IsWhole K.known stage.now }
    requires instruction { IsInstruction stage.now.universe.now instruction.now }
    requires lane { number < length stage.now.plan.now.lanes }
    requires place { place ≤ length (lane stage.now.plan.now.lanes number).instructions }
    ensures words { AreWordsFor stage.now.universe.now
        ((stage_rows K.known stage.now) number place)
        (possible stage.now.universe.now stage.now.plan.now.lanes number place) instruction.now
        result }
    ensures known_there { (b : ℕ) → word_has result.known b ≡ true
        → word_has result.there b ≡ true }
{
    match instruction {
        Instruction::Unpack { name, .. } => ArchiveWords {
            known: stage.known.word(stage.universe, number, place, *name),
            there: stage
                .outputs
                .possible_word(stage.universe, number, place, *name),
        },
        Instruction::Configure(_)
        | Instruction::Deconfigure(_)
        | Instruction::Remove(_)
        | Instruction::Build(_)
        | Instruction::Publish(_)
        | Instruction::Wait(_)
        | Instruction::When { .. }
        | Instruction::Otherwise
        | Instruction::EndWhen => ArchiveWords { known: 0, there: 0 },
    }
}

/// Goes on by an instruction that neither begins nor ends a branch.
fn step_on<K: KnownWords>(
    stage: &Stage<'_, K>,
    number: usize,
    place: usize,
    instruction: &Instruction,
    may: &mut LaneMay,
) -> Result<(), WalkError>
    requires stage { IsWhole K.known stage.now }
    requires lane { number < length stage.now.plan.now.lanes }
    requires here { instruction_at stage.now.plan.now.lanes number place ≡ Some instruction.now }
    requires place { place < length (lane stage.now.plan.now.lanes number).instructions }
    requires plain { is_plain instruction.now ≡ true }
    requires at { OfStage K.known stage.now IsAt number place may.old }
    ensures { OfStage K.known stage.now IsAdvanced number place may.new result }
{
    let _lanes = stage.plan.lanes();
    let lane = stage.plan.lane(number);
    let words = words_at(stage, number, place, instruction);
    let of = LaneOf {
        universe: stage.universe,
        tables: stage.tables,
        lane,
    };
    let stepped = step(of, &mut may.here, &mut may.doubts, instruction, words);
    match stepped {
        Ok(()) => Ok(()),
        Err(trap) => Err(WalkError::Unsafe {
            lane: number as u32,
            instruction: place as u32 + 1,
            trap,
        }),
    }
}

/// Goes on by the instruction at a place of a lane, over what its chroot may hold there.
///
/// # Errors
///
/// [`WalkError::Unsafe`] where the instruction may meet a trap, [`WalkError::Uneven`] where it ends
/// branches that part, and [`WalkError::Memory`] where memory is refused.
pub fn advance<K: KnownWords>(
    stage: &Stage<'_, K>,
    number: usize,
    place: usize,
    may: &mut LaneMay,
) -> Result<(), WalkError>
    requires stage { IsWhole K.known stage.now }
    requires lane { number < length stage.now.plan.now.lanes }
    requires place { place < length (lane stage.now.plan.now.lanes number).instructions }
    requires at { OfStage K.known stage.now IsAt number place may.old }
    ensures { OfStage K.known stage.now IsAdvanced number place may.new result }
{
    let _lanes = stage.plan.lanes();
    let instruction = &stage.plan.lane(number).instructions()[place];
    match instruction {
        Instruction::When { .. } => {
            may.begin(place as u32)?;
            Ok(())
        }
        Instruction::Otherwise => {
            may.turn();
            Ok(())
        }
        Instruction::EndWhen => match may.end(stage.universe) {
            Some(at) => Err(WalkError::Uneven {
                lane: number as u32,
                instruction: at + 1,
            }),
            None => Ok(()),
        },
        Instruction::Unpack { .. }
        | Instruction::Configure(_)
        | Instruction::Deconfigure(_)
        | Instruction::Remove(_)
        | Instruction::Build(_)
        | Instruction::Publish(_)
        | Instruction::Wait(_) => step_on(stage, number, place, instruction, may),
    }
}

/// Walks over the instructions of a lane ahead of a place: gives what its chroot may hold at the
/// place, or the first unsafe instruction.
///
/// # Errors
///
/// [`WalkError::Unsafe`] or [`WalkError::Uneven`] of the first unsafe instruction ahead of the
/// place. [`WalkError::Memory`] where memory ran out.
pub fn walk_to<K: KnownWords>(
    alloc: Global,
    stage: &Stage<'_, K>,
    number: usize,
    end: usize,
) -> Result<LaneMay, WalkError>
    requires stage { IsWhole K.known stage.now }
    requires lane { number < length stage.now.plan.now.lanes }
    requires end { end ≤ length (lane stage.now.plan.now.lanes number).instructions }
    ensures { OfStage K.known stage.now WalkedTo number end result }
{
    let _lanes = stage.plan.lanes();
    let lane = stage.plan.lane(number);
    let mut may = LaneMay {
        here: MayHold::of_base(alloc, stage.universe, lane.base())?,
        doubts: Doubts::new(alloc),
        branch: Branch::Outside,
    };
    for place in 0..end {
        advance(stage, number, place, &mut may)?;
    }
    Ok(may)
}

/// Walks over a lane: gives its cost, or its first unsafe instruction.
///
/// # Errors
///
/// [`WalkError::Unsafe`] or [`WalkError::Uneven`] of the lane's first unsafe instruction.
/// [`WalkError::Memory`] where memory ran out.
pub fn walk<K: KnownWords>(
    alloc: Global,
    stage: &Stage<'_, K>,
    number: usize,
) -> Result<u64, WalkError>
    requires stage { IsWhole K.known stage.now }
    requires lane { number < length stage.now.plan.now.lanes }
    ensures { OfStage K.known stage.now Walked number result }
{
    let end = stage.plan.lane(number).instructions().len();
    let may = walk_to(alloc, stage, number, end)?;
    Ok(may.here.cost())
}
