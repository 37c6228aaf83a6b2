//! An instruction under a may map.

ghost use Rattle.std.specs.Prelude.{◌≡◌, ◌<◌, ℕ, Bool, true, OnOk};
ghost use Rattle.clause_kernel.specs.Rows.{word_has};
ghost use Rattle.farm_model.specs.declared.types.Variant.{Variant};
ghost use Rattle.plan_model.specs.Sound.{IsInstruction};
ghost use Rattle.may_rows.specs.Met.{AreDoubts};
ghost use Rattle.may_rows.specs.Picks.{AreOfArchive};
ghost use Rattle.may_rows.specs.Words.{may_of};
ghost use Rattle.may_rows.specs.Walk.{Answers, AreWordsFor, IsOfLane};

use crate::build::{build, publish};
use crate::configure::configure;
use crate::doubts::{Doubts, upgrades};
use crate::state::MayHold;
use crate::unpack::unpack;
use crate::withdraw::{deconfigure, remove};
use farm_universe::{Trap, Universe};
use plan_reader::{Instruction, Lane};
use sat_rows::Tables;

/// What of one name is surely in the archive, and what may be, as words.
#[derive(Clone, Copy)]
pub struct ArchiveWords {
    pub known: u64,
    pub there: u64,
}

/// A lane over a universe with its rows.
#[derive(Clone, Copy)]
pub struct LaneOf<'a> {
    pub universe: &'a Universe,
    pub tables: &'a Tables,
    pub lane: &'a Lane,
    ghost tables_are: { tables.now ≡ universe.now },
}

/// Goes on by an instruction, where it is safe.
fn go_on(
    of: LaneOf<'_>,
    state: &mut MayHold,
    doubts: &Doubts,
    instruction: &Instruction,
    words: ArchiveWords,
) -> Result<(), Trap>
    requires instruction { IsInstruction of.universe.now instruction.now }
    requires of_lane { IsOfLane of.universe.now of.lane.now state.old }
    requires known_there { (b : ℕ) → word_has words.known b ≡ true → word_has words.there b ≡ true }
    requires doubts { AreDoubts of.universe.now (may_of state.old) doubts.now }
    ensures answer { (in_it may_be : Variant → Bool)
        → AreOfArchive of.entry.universe.now in_it may_be
        → AreWordsFor of.entry.universe.now in_it may_be instruction.now words
        → Answers of.entry.universe.now of.entry.lane.now in_it may_be (may_of state.old)
        instruction.now (may_of state.new) result }
    ensures of_lane { OnOk result (IsOfLane of.entry.universe.now of.entry.lane.now state.new) }
{
    match instruction {
        Instruction::Unpack { name, relation } => unpack(of, state, *name, relation, words),
        Instruction::Configure(members) => configure(of, state, members.as_slice()),
        Instruction::Deconfigure(members) => deconfigure(of, state, members.as_slice()),
        Instruction::Remove(members) => remove(of, state, members.as_slice()),
        Instruction::Build(recipe) => build(of, state, doubts, *recipe),
        Instruction::Publish(recipe) => publish(of.universe, of.lane, state, *recipe),
        Instruction::Wait(_)
        | Instruction::When { .. }
        | Instruction::Otherwise
        | Instruction::EndWhen => Ok(()),
    }
}

/// Goes on by an instruction of the chroot, where it is safe; branches begin and end by
/// [`MayHold::copy`] and [`MayHold::join`]. `words` is what of the name that it unpacks, if it
/// does, is in the archive. `doubts` tells which entries of what is configured are not known to be
/// met, and is kept so: a build looks at no others.
///
/// # Errors
///
/// The first trap that the instruction may meet. The state then is of no further use.
pub fn step(
    of: LaneOf<'_>,
    state: &mut MayHold,
    doubts: &mut Doubts,
    instruction: &Instruction,
    words: ArchiveWords,
) -> Result<(), Trap>
    requires instruction { IsInstruction of.universe.now instruction.now }
    requires of_lane { IsOfLane of.universe.now of.lane.now state.old }
    requires known_there { (b : ℕ) → word_has words.known b ≡ true → word_has words.there b ≡ true }
    requires doubts { AreDoubts of.universe.now (may_of state.old) doubts.old }
    ensures answer { (in_it may_be : Variant → Bool)
        → AreOfArchive of.entry.universe.now in_it may_be
        → AreWordsFor of.entry.universe.now in_it may_be instruction.now words
        → Answers of.entry.universe.now of.entry.lane.now in_it may_be (may_of state.old)
        instruction.now (may_of state.new) result }
    ensures of_lane { OnOk result (IsOfLane of.entry.universe.now of.entry.lane.now state.new) }
    ensures doubts { (in_it may_be : Variant → Bool)
        → AreOfArchive of.entry.universe.now in_it may_be
        → AreWordsFor of.entry.universe.now in_it may_be instruction.now words
        → OnOk result (AreDoubts of.entry.universe.now (may_of state.new) doubts.new) }
{
    let upgraded = upgrades(state, instruction);
    go_on(of, state, doubts, instruction, words)?;
    doubts.pass(instruction, upgraded);
    Ok(())
}
