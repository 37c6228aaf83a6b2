//! Why the instruction at a place of a plan may meet a trap.

ghost use Rattle.std.specs.Prelude.{◌≡◌, ◌≢◌, ◌<◌, ℕ, Bool, true, [], Some, IfOk, filter, length};
ghost use Rattle.clause_kernel.specs.Rows.{word_has};
ghost use Rattle.farm_model.specs.declared.types.Variant.{Variant};
ghost use Rattle.plan_model.specs.Common.{lane, risk_at, IsInstruction};
ghost use Rattle.plan_verifier.specs.Branch.{IsAt};
ghost use Rattle.plan_verifier.specs.Stage.{IsWhole, OfStage, of_stage};
ghost use Rattle.may_rows.specs.Picks.{AreOfArchive};
ghost use Rattle.may_rows.specs.Walk.{AreWordsFor};
ghost use Rattle.may_rows.specs.Words.{may_of};
ghost use Rattle.explain_reasons.specs.Listed.{IsPlaceOfLane, Lists};
ghost use Rattle.explain_reasons.specs.Reasons as spec;

use crate::held::Phase;
use crate::place::Place;
use crate::types::{Found, Reason};
use farm_universe::Trap;
use known_rows::KnownWords;
use may_rows::ArchiveWords;
use may_rows::pick::pick;
use plan_reader::Instruction;
use plan_verifier::{LaneMay, Stage, words_at};
use std::alloc::Global;

impl Place<'_> {
    /// Why an instruction may meet a trap. `words` is what of the name that it unpacks, if it does,
    /// is in the archive.
    fn list_reasons(&self, instruction: &Instruction, words: ArchiveWords, trap: Trap) -> Found
        requires place { IsPlaceOfLane self.now }
        requires instruction { IsInstruction self.now.universe.now instruction.now }
        requires known_there { (b : ℕ) → word_has words.known b ≡ true
            → word_has words.there b ≡ true }
        ensures { (in_it may_be : Variant → Bool)
            → AreOfArchive self.now.universe.now in_it may_be
            → AreWordsFor self.now.universe.now in_it may_be instruction.now words
            → IfOk result (λ found. found.items ≡ spec.reasons self.now.universe.now
            self.now.lane.now in_it may_be (may_of self.now.state.now) instruction.now trap) }
    {
        match instruction {
            Instruction::Unpack { name, relation } => {
                match pick(self.universe, *name, relation, words.known, words.there) {
                    Some(set) => self.list_unpack(*name, set, trap),
                    None => match trap {
                        Trap::Missing => self.list_if(true, Reason::Missing(*name)),
                        _ => Ok(Vec::new(self.alloc)),
                    },
                }
            }
            Instruction::Configure(members) => self.list_configure(members.as_slice(), trap),
            Instruction::Deconfigure(members) => {
                self.list_withdraw(Phase::Configured, members.as_slice(), trap)
            }
            Instruction::Remove(members) => {
                self.list_withdraw(Phase::Present, members.as_slice(), trap)
            }
            Instruction::Build(recipe) => self.list_build(*recipe, trap),
            Instruction::Publish(recipe) => self.list_publish(*recipe, trap),
            Instruction::Wait(_)
            | Instruction::When { .. }
            | Instruction::Otherwise
            | Instruction::EndWhen => Ok(Vec::new(self.alloc)),
        }
    }
}

/// Why the instruction at a place of a lane may meet a trap: the witnesses of the trap's test, of
/// which the first is told. `may` is what may be held at the place, as
/// [`plan_verifier::walk::walk_to`] gives it.
pub fn reasons<K: KnownWords>(
    alloc: Global,
    stage: &Stage<'_, K>,
    number: usize,
    place: usize,
    may: &LaneMay,
    trap: Trap,
) -> Found
    requires stage { IsWhole K.known stage.now }
    requires lane { number < length stage.now.plan.now.lanes }
    requires place { place < length (lane stage.now.plan.now.lanes number).instructions }
    requires at { OfStage K.known stage.now IsAt number place may.now }
    ensures told { Lists result (of_stage K.known stage.now spec.reasons_at number place trap) }
    ensures there { of_stage K.known stage.now risk_at number place ≡ Some trap
        → IfOk result (λ found. found.items ≢ []) }
{
    let Some(instruction) = stage.plan.instruction(number, place) else {
        return Ok(Vec::new(alloc));
    };
    let words = words_at(stage, number, place, instruction);
    let at = Place {
        alloc,
        universe: stage.universe,
        tables: stage.tables,
        lane: stage.plan.lane(number),
        state: &may.here,
    };
    at.list_reasons(instruction, words, trap)
}

/// Those of some reasons that are an entry that may not be met.
pub fn unmet_entries(mut reasons: Vec<Reason>) -> Vec<Reason>
    ensures { result.items ≡ filter spec.is_unmet reasons.items }
{
    reasons.retain(|reason| matches!(reason, Reason::Unmet(..) | Reason::BuildNeed(..)));
    reasons
}
