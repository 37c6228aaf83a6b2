//! Which variants an unpack wants, and whether an instruction is safe where an unpack ahead of it
//! takes a version.

ghost use Rattle.std.specs.Prelude.{◌≡◌, ◌<◌, ◌≤◌, ◌↔◌, Some, IsTrue, IfOk, length};
ghost use Rattle.farm_model.specs.Common.{names, IsKnown};
ghost use Rattle.plan_model.specs.Plan.{lane, instruction_at};
ghost use Rattle.plan_verifier.specs.Branch.{IsAt};
ghost use Rattle.plan_verifier.specs.Stage.{IsWhole, OfStage};
ghost use Rattle.explain_reasons.specs.Pins.{IsPinned, IsPinSafe, IsTried, IsWantedWord, OfPinned, is_unpack, pinned, pinned_unpack};

use crate::place::lane_length;
use deb_relation::{Op, view_relation};
use farm_universe::{Universe, Variant};
use known_rows::KnownWords;
use may_rows::{LaneOf, step};
use plan_reader::{Instruction, Plan};
use plan_verifier::walk::walk_to;
use plan_verifier::{LaneMay, Stage, words_at};
use sat_rows::mask;
use std::alloc::{AllocError, Global};

/// Gives the variants in the relation of the unpack at a place of a lane, as a word of its name:
/// none of any other instruction.
pub fn wanted_word(universe: &Universe, plan: &Plan, number: usize, place: usize) -> u64
    requires { number < length plan.now.lanes }
    ensures { IsWantedWord universe.now (instruction_at plan.now.lanes number place) result }
{
    match plan.instruction(number, place) {
        Some(Instruction::Unpack { name, relation }) => {
            mask(universe, *name, view_relation(relation))
        }
        _ => 0,
    }
}

/// An unpack by its place in a lane, and the variant that it is to take.
#[derive(Clone, Copy)]
pub struct Pin {
    pub place: usize,
    pub variant: Variant,
}

/// A pin, and the unpack of just its variant.
#[derive(Clone, Copy)]
struct Pinned<'a> {
    pin: Pin,
    unpack: &'a Instruction,
}

/// The unpack of a variant by its version.
fn unpack_of(universe: &Universe, variant: Variant) -> Result<Instruction, AllocError>
    requires known { IsKnown universe.now variant }
    ensures { IfOk result (λ unpack. unpack ≡ pinned_unpack universe.now variant) }
{
    let version = universe.version(variant).clone()?;
    Ok(Instruction::Unpack {
        name: variant.name,
        relation: Some((Op::Equal, version)),
    })
}

/// Tells whether an unpack stands at a place of a lane.
fn unpacks(plan: &Plan, number: usize, place: usize) -> bool
    requires { number < length plan.now.lanes }
    ensures { result ≡ is_unpack (instruction_at plan.now.lanes number place) }
{
    matches!(
        plan.instruction(number, place),
        Some(Instruction::Unpack { .. })
    )
}

/// The instruction at a place of a lane with a pinned unpack.
fn instruction_with<'a>(
    plan: &'a Plan,
    _universe: &Universe,
    number: usize,
    place: usize,
    by: Pinned<'a>,
) -> &'a Instruction
    requires place { place < length (lane plan.now.lanes number).instructions }
    requires unpack { IsPinned _universe.now plan.now.lanes number by.pin by.unpack.now }
    ensures { instruction_at (pinned _universe.now plan.now.lanes number by.entry.pin) number place
        ≡ Some result.now }
{
    if place == by.pin.place {
        by.unpack
    } else {
        &plan.lane(number).instructions()[place]
    }
}

/// Goes on by the instruction at a place of a lane with a pinned unpack. Tells whether it is safe.
fn go_on<K: KnownWords>(
    stage: &Stage<'_, K>,
    number: usize,
    place: usize,
    by: Pinned<'_>,
    may: &mut LaneMay,
) -> Result<bool, AllocError>
    requires stage { IsWhole K.known stage.now }
    requires place { place < length (lane stage.now.plan.now.lanes number).instructions }
    requires unpack { IsPinned stage.now.universe.now stage.now.plan.now.lanes number by.pin
        by.unpack.now }
    requires at { OfStage K.known stage.now (OfPinned by.pin IsAt) number place may.old }
    ensures { IfOk result (OfStage K.known stage.now (OfPinned by.entry.pin IsTried) number place
        may.new) }
{
    let _lanes = stage.plan.lanes();
    let instruction = instruction_with(stage.plan, stage.universe, number, place, by);
    match instruction {
        Instruction::When { .. } => {
            may.begin(place as u32)?;
            Ok(true)
        }
        Instruction::Otherwise => {
            may.turn();
            Ok(true)
        }
        Instruction::EndWhen => Ok(may.end(stage.universe).is_none()),
        _ => {
            let words = words_at(stage, number, place, instruction);
            let of = LaneOf {
                universe: stage.universe,
                tables: stage.tables,
                lane: stage.plan.lane(number),
            };
            Ok(step(of, &mut may.here, &mut may.doubts, instruction, words).is_ok())
        }
    }
}

/// Tells whether a lane is safe up to and with the instruction at a place where an unpack ahead of
/// it, or it itself, is pinned to a variant, by the rules of the verdict. Where no unpack stands
/// there, it says no.
pub fn is_safe_with<K: KnownWords>(
    alloc: Global,
    stage: &Stage<'_, K>,
    number: usize,
    place: usize,
    pin: Pin,
) -> Result<bool, AllocError>
    requires stage { IsWhole K.known stage.now }
    requires lane { number < length stage.now.plan.now.lanes }
    requires place { place < length (lane stage.now.plan.now.lanes number).instructions }
    requires ahead { pin.place ≤ place }
    requires known { IsKnown stage.now.universe.now pin.variant }
    requires named { pin.variant.name < names stage.now.universe.now }
    ensures { IfOk result (λ safe. IsTrue safe
        ↔ OfStage K.known stage.now IsPinSafe number pin place) }
{
    let _length = lane_length(stage.plan, number);
    if !unpacks(stage.plan, number, pin.place) {
        return Ok(false);
    }
    let unpack = unpack_of(stage.universe, pin.variant)?;
    let by = Pinned {
        pin,
        unpack: &unpack,
    };
    // Ahead of the first instruction it can end for want of memory alone.
    let Ok(mut may) = walk_to(alloc, stage, number, 0) else {
        return Err(AllocError);
    };
    for at in 0..place + 1 {
        if !go_on(stage, number, at, by, &mut may)? {
            return Ok(false);
        }
    }
    Ok(true)
}
