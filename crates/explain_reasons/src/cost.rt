//! What a lane costs at most, also past an unsafe instruction.

ghost use Rattle.std.specs.Prelude.{◌≡◌, ◌<◌, ℕ, suc, Bool, true, is_some, Some, IfSome, length};
ghost use Rattle.clause_kernel.specs.Rows.{word_has};
ghost use Rattle.farm_model.specs.Universe.{Universe};
ghost use Rattle.farm_model.specs.declared.types.Variant.{Variant};
ghost use Rattle.plan_model.specs.Common.{Maps, maps_behind, IsInstruction};
ghost use Rattle.plan_verifier.specs.Stage.{IsWhole, of_stage};
ghost use Rattle.may_rows.specs.Picks.{AreOfArchive};
ghost use Rattle.may_rows.specs.Walk.{AreWordsFor};
ghost use Rattle.explain_reasons.specs.Cost as spec;

use crate::instructions::unpack_cost;
use crate::place::lane_length;
use farm_universe::Universe;
use known_rows::KnownWords;
use may_rows::ArchiveWords;
use may_rows::pick::pick;
use plan_reader::Instruction;
use plan_verifier::{Stage, words_at};

/// What may be spent at a place, ahead of the open `when`, and at the end of its first branch, or the
/// greatest `u64` where that is more.
#[derive(Clone, Copy)]
pub struct Spent {
    pub here: u64,
    pub ahead: u64,
    pub first: u64,
}

/// What an instruction costs at most: none of an unpack of which no variant that is surely in the
/// archive is wanted. `words` is what of the name that it unpacks, if it does, is there.
fn instruction_cost(
    universe: &Universe,
    instruction: &Instruction,
    words: ArchiveWords,
) -> Option<u64>
    requires instruction { IsInstruction universe.now instruction.now }
    requires known_there { (b : ℕ) → word_has words.known b ≡ true → word_has words.there b ≡ true }
    ensures { (in_it may_be : Variant → Bool) → AreOfArchive universe.now in_it may_be
        → AreWordsFor universe.now in_it may_be instruction.now words
        → result ≡ spec.cost_of universe.now in_it may_be instruction.now }
{
    match instruction {
        Instruction::Unpack { name, relation } => {
            let set = pick(universe, *name, relation, words.known, words.there)?;
            Some(unpack_cost(universe, *name, set))
        }
        Instruction::Configure(members)
        | Instruction::Deconfigure(members)
        | Instruction::Remove(members) => Some(members.as_slice().len() as u64),
        Instruction::Build(recipe) => Some(universe.recipe(*recipe).steps()),
        Instruction::Publish(recipe) => Some(universe.outputs(*recipe).len() as u64),
        Instruction::Wait(_)
        | Instruction::When { .. }
        | Instruction::Otherwise
        | Instruction::EndWhen => Some(0),
    }
}

impl Spent {
    /// What may be spent behind an instruction of this cost.
    fn behind(mut self, instruction: &Instruction, cost: u64) -> Spent
        ensures { (u : Universe) (known there : Variant → Bool) (m : Maps)
            → spec.cost_of u known there instruction.now ≡ Some cost → self ≡ spec.spent_of m
            → result ≡ spec.spent_of (maps_behind u known there m instruction.now) }
    {
        match instruction {
            Instruction::When { .. } => self.ahead = self.here,
            Instruction::Otherwise => {
                self.first = self.here;
                self.here = self.ahead;
            }
            Instruction::EndWhen => self.here = self.first.max(self.here),
            _ => self.here = self.here.saturating_add(cost),
        }
        self
    }
}

/// What may be spent behind the instruction at a place of a lane; none where its cost is not known.
fn pass<K: KnownWords>(
    stage: &Stage<'_, K>,
    number: usize,
    place: usize,
    spent: Spent,
) -> Option<Spent>
    requires stage { IsWhole K.known stage.now }
    requires lane { number < length stage.now.plan.now.lanes }
    requires spent { spent ≡ of_stage K.known stage.now spec.spent_at number place }
    ensures known { is_some result ≡ of_stage K.known stage.now spec.has_cost number place }
    ensures spent { IfSome result
        (λ next. next ≡ of_stage K.known stage.now spec.spent_at number (suc place)) }
{
    let Some(instruction) = stage.plan.instruction(number, place) else {
        return Some(spent);
    };
    let words = words_at(stage, number, place, instruction);
    let cost = instruction_cost(stage.universe, instruction, words)?;
    Some(spent.behind(instruction, cost))
}

/// The most that a lane spends, in steps, also where it may meet a trap: none where an unpack
/// wants no variant that is surely in the archive, whose cost is not known, and none where it is
/// not less than the greatest `u64`.
pub fn lane_cost<K: KnownWords>(stage: &Stage<'_, K>, number: usize) -> Option<u64>
    requires stage { IsWhole K.known stage.now }
    requires lane { number < length stage.now.plan.now.lanes }
    ensures { result ≡ of_stage K.known stage.now spec.lane_needs number }
{
    let mut spent = Spent {
        here: 0,
        ahead: 0,
        first: 0,
    };
    for place in 0..lane_length(stage.plan, number) {
        spent = pass(stage, number, place, spent)?;
    }
    if spent.here == u64::MAX {
        return None;
    }
    Some(spent.here)
}
