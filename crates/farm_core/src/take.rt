//! A lane's turn.

ghost use Rattle.std.specs.Prelude.{◌≡◌, ◌<◌, ◌≤◌, ℕ, Some, length, slice_get};
ghost use Rattle.farm_core.specs.Lanes.{IsRun, shown};
ghost use Rattle.farm_core.specs.Turns.{IsTurn, MeetsNone};
ghost use Rattle.farm_model.specs.Common.{names, has_bit, variant, IsKnown};
ghost use Rattle.plan_reader.specs.declared.error.TheConstants.{MOST_INSTRUCTIONS};
ghost use Rattle.plan_model.specs.Common.{IsInstruction, turn_of, unpacks};
ghost use Rattle.plan_model.specs.declared.instructions.Instruction.{Instruction};
ghost use Rattle.plan_model.specs.declared.instructions.Instruction.TheVariants.{Wait, When};

use crate::lane::LaneRun;
use crate::pick::{has_wanted, newest};
use crate::traps::Traps;
use crate::turn::Turn;
use crate::wait::passes;
use deb_relation::{Entry, Op};
use deb_version::Version;
use farm_archive::PlainArchive;
use farm_universe::{Trap, Universe, Variant};
use plan_reader::{Instruction, Lane};

impl LaneRun {
    /// Unpacks what an unpack of a name has found, if it has found something.
    fn unpack_found(
        &mut self,
        universe: &Universe,
        lane: &Lane,
        name: u32,
        found: Option<u32>,
        traps: Traps,
    ) -> Turn
        requires run { IsRun universe.now lane.now self.old }
        requires next { self.old.done < length lane.now.instructions }
        requires short { length lane.now.instructions ≤ MOST_INSTRUCTIONS }
        requires known { (b : ℕ) → found ≡ Some b → IsKnown universe.now (variant name b) }
        requires free { MeetsNone traps (unpacks universe.now lane.now (shown self.old) name found) }
        ensures { IsTurn universe.now lane.now self.old self.new result
            (unpacks universe.now lane.now (shown self.old) name found) }
    {
        match found {
            Some(bit) => self.unpack(universe, lane, Variant { name, bit }, traps),
            None => Turn::Fails(Trap::Missing), // X1
        }
    }

    /// Goes on where some variant in the archive satisfies the entry.
    fn wait(
        &mut self,
        universe: &Universe,
        archive: &PlainArchive,
        lane: &Lane,
        entry: &Entry,
    ) -> Turn
        requires run { IsRun universe.now lane.now self.old }
        requires next { self.old.done < length lane.now.instructions }
        requires short { length lane.now.instructions ≤ MOST_INSTRUCTIONS }
        ensures { IsTurn universe.now lane.now self.old self.new result
            (turn_of universe.now (has_bit archive.now.words) lane.now (shown self.old)
            (Some (Wait entry.now))) }
    {
        if passes(universe, archive, entry) {
            let _spent = self.spent;
            self.pass(lane, 0);
            Turn::Goes
        } else {
            Turn::Waits
        }
    }

    /// Goes into the first branch where the archive has a variant of a name in the relation, else
    /// into the second one.
    fn branch(
        &mut self,
        universe: &Universe,
        archive: &PlainArchive,
        lane: &Lane,
        name: u32,
        relation: &Option<(Op, Version)>,
    ) -> Turn
        requires run { IsRun universe.now lane.now self.old }
        requires next { self.old.done < length lane.now.instructions }
        requires short { length lane.now.instructions ≤ MOST_INSTRUCTIONS }
        requires named { name < names universe.now }
        ensures { IsTurn universe.now lane.now self.old self.new result
            (turn_of universe.now (has_bit archive.now.words) lane.now (shown self.old)
            (Some (When name relation.now))) }
    {
        let done = self.done as usize;
        let place = if has_wanted(universe, archive, name, relation) {
            lane.next_place(done)
        } else {
            lane.else_place(done)
        };
        self.go_to(place);
        Turn::Goes
    }

    /// Carries out an instruction, or makes an output of it.
    fn take(
        &mut self,
        universe: &Universe,
        archive: &PlainArchive,
        lane: &Lane,
        instruction: &Instruction,
        traps: Traps,
    ) -> Turn
        requires run { IsRun universe.now lane.now self.old }
        requires next { self.old.done < length lane.now.instructions }
        requires short { length lane.now.instructions ≤ MOST_INSTRUCTIONS }
        requires known { IsInstruction universe.now instruction.now }
        requires free { MeetsNone traps (turn_of universe.now (has_bit archive.now.words) lane.now
            (shown self.old) (Some instruction.now)) }
        ensures { IsTurn universe.now lane.now self.old self.new result
            (turn_of universe.now (has_bit archive.now.words) lane.now (shown self.old)
            (Some instruction.now)) }
    {
        match instruction {
            Instruction::Unpack { name, relation } => {
                let found = newest(universe, archive, *name, relation);
                self.unpack_found(universe, lane, *name, found, traps)
            }
            Instruction::Configure(members) => {
                self.configure(universe, lane, members.as_slice(), traps)
            }
            Instruction::Deconfigure(members) => {
                self.deconfigure(universe, lane, members.as_slice(), traps)
            }
            Instruction::Remove(members) => self.remove(universe, lane, members.as_slice(), traps),
            Instruction::Build(recipe) => self.build(universe, lane, *recipe, traps),
            Instruction::Publish(recipe) => self.publish(universe, lane, *recipe),
            Instruction::Wait(entry) => self.wait(universe, archive, lane, entry),
            Instruction::When { name, relation } => {
                self.branch(universe, archive, lane, *name, relation)
            }
            Instruction::Otherwise | Instruction::EndWhen => Turn::Ends,
        }
    }

    /// Takes the lane's turn, over what is in the archive.
    pub fn turn(
        &mut self,
        universe: &Universe,
        archive: &PlainArchive,
        lane: &Lane,
        traps: Traps,
    ) -> Turn
        requires run { IsRun universe.now lane.now self.old }
        requires short { length lane.now.instructions ≤ MOST_INSTRUCTIONS }
        requires known { (i : ℕ) (x : Instruction)
            → slice_get lane.now.instructions i ≡ Some x → IsInstruction universe.now x }
        requires free { MeetsNone traps (turn_of universe.now (has_bit archive.now.words) lane.now
            (shown self.old) (slice_get lane.now.instructions self.old.done)) }
        ensures { IsTurn universe.now lane.now self.old self.new result
            (turn_of universe.now (has_bit archive.now.words) lane.now (shown self.old)
            (slice_get lane.now.instructions self.old.done)) }
    {
        match lane.instructions().get(self.done as usize) {
            Some(instruction) => self.take(universe, archive, lane, instruction, traps),
            None => Turn::Ends,
        }
    }
}
