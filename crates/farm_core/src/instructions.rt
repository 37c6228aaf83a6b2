//! The instructions on a lane's chroot.

ghost use Rattle.std.specs.Prelude.{◌<◌, ◌≤◌, All, length};
ghost use Rattle.farm_core.specs.Lanes.{IsRun, shown};
ghost use Rattle.farm_core.specs.Turns.{IsTurn, MeetsNone};
ghost use Rattle.plan_reader.specs.declared.error.TheConstants.{MOST_INSTRUCTIONS};
ghost use Rattle.plan_model.specs.Common.{unpacks, turn_of, nothing};
ghost use Rattle.plan_model.specs.declared.instructions.Instruction.TheVariants.{Build, Configure, Deconfigure, Remove};
ghost use Rattle.farm_model.specs.Common.{names, IsKnown};

use crate::charge::size_cost;
use crate::lane::LaneRun;
use crate::traps::Traps;
use crate::turn::Turn;
use farm_universe::{Trap, Universe, Variant};
use plan_reader::Lane;

impl LaneRun {
    /// Unpacks a variant of the archive.
    pub fn unpack(
        &mut self,
        universe: &Universe,
        lane: &Lane,
        variant: Variant,
        traps: Traps,
    ) -> Turn
        requires run { IsRun universe.now lane.now self.old }
        requires next { self.old.done < length lane.now.instructions }
        requires short { length lane.now.instructions ≤ MOST_INSTRUCTIONS }
        requires known { IsKnown universe.now variant }
        requires free { MeetsNone traps (unpacks universe.now lane.now (shown self.old) variant.name (Some variant.bit)) }
        ensures { IsTurn universe.now lane.now self.old self.new result
            (unpacks universe.now lane.now (shown self.old) variant.name (Some variant.bit)) }
    {
        let cost = size_cost(universe.size(variant));
        if self.is_over(lane, cost) {
            return Turn::Fails(Trap::OverBudget); // X14
        }
        if let Err(trap) = traps.unpack(&mut self.chroot, universe, variant) {
            return Turn::Fails(trap);
        }
        self.pass(lane, cost);
        Turn::Goes
    }

    /// Configures the members of a set.
    pub fn configure(
        &mut self,
        universe: &Universe,
        lane: &Lane,
        members: &[u32],
        traps: Traps,
    ) -> Turn
        requires run { IsRun universe.now lane.now self.old }
        requires next { self.old.done < length lane.now.instructions }
        requires short { length lane.now.instructions ≤ MOST_INSTRUCTIONS }
        requires named { All (λ m. m < names universe.now) members.now }
        requires free { MeetsNone traps (turn_of universe.now nothing lane.now (shown self.old)
            (Some (Configure members.now))) }
        ensures { IsTurn universe.now lane.now self.old self.new result
            (turn_of universe.now nothing lane.now (shown self.old)
            (Some (Configure members.now))) }
    {
        let cost = members.len() as u64;
        if self.is_over(lane, cost) {
            return Turn::Fails(Trap::OverBudget); // X14
        }
        if let Err(trap) = traps.configure(&mut self.chroot, universe, members) {
            return Turn::Fails(trap);
        }
        self.pass(lane, cost);
        Turn::Goes
    }

    /// Takes the members of a set back to unpacked.
    pub fn deconfigure(
        &mut self,
        universe: &Universe,
        lane: &Lane,
        members: &[u32],
        traps: Traps,
    ) -> Turn
        requires run { IsRun universe.now lane.now self.old }
        requires next { self.old.done < length lane.now.instructions }
        requires short { length lane.now.instructions ≤ MOST_INSTRUCTIONS }
        requires named { All (λ m. m < names universe.now) members.now }
        requires free { MeetsNone traps (turn_of universe.now nothing lane.now (shown self.old)
            (Some (Deconfigure members.now))) }
        ensures { IsTurn universe.now lane.now self.old self.new result
            (turn_of universe.now nothing lane.now (shown self.old)
            (Some (Deconfigure members.now))) }
    {
        let cost = members.len() as u64;
        if self.is_over(lane, cost) {
            return Turn::Fails(Trap::OverBudget); // X14
        }
        if let Err(trap) = traps.deconfigure(&mut self.chroot, universe, members) {
            return Turn::Fails(trap);
        }
        self.pass(lane, cost);
        Turn::Goes
    }

    /// Removes the members of a set.
    pub fn remove(
        &mut self,
        universe: &Universe,
        lane: &Lane,
        members: &[u32],
        traps: Traps,
    ) -> Turn
        requires run { IsRun universe.now lane.now self.old }
        requires next { self.old.done < length lane.now.instructions }
        requires short { length lane.now.instructions ≤ MOST_INSTRUCTIONS }
        requires named { All (λ m. m < names universe.now) members.now }
        requires free { MeetsNone traps (turn_of universe.now nothing lane.now (shown self.old) (Some (Remove members.now))) }
        ensures { IsTurn universe.now lane.now self.old self.new result
            (turn_of universe.now nothing lane.now (shown self.old) (Some (Remove members.now))) }
    {
        let cost = members.len() as u64;
        if self.is_over(lane, cost) {
            return Turn::Fails(Trap::OverBudget); // X14
        }
        if let Err(trap) = traps.remove(&mut self.chroot, universe, members) {
            return Turn::Fails(trap);
        }
        self.pass(lane, cost);
        Turn::Goes
    }

    /// Builds a recipe in the chroot, which stays as it is.
    pub fn build(&mut self, universe: &Universe, lane: &Lane, recipe: u32, traps: Traps) -> Turn
        requires run { IsRun universe.now lane.now self.old }
        requires next { self.old.done < length lane.now.instructions }
        requires short { length lane.now.instructions ≤ MOST_INSTRUCTIONS }
        requires known { recipe < length universe.now.recipes }
        requires free { MeetsNone traps (turn_of universe.now nothing lane.now (shown self.old) (Some (Build recipe))) }
        ensures { IsTurn universe.now lane.now self.old self.new result
            (turn_of universe.now nothing lane.now (shown self.old) (Some (Build recipe))) }
    {
        let cost = universe.recipe(recipe).steps();
        if self.is_over(lane, cost) {
            return Turn::Fails(Trap::OverBudget); // X14
        }
        if let Err(trap) = traps.can_build(&self.chroot, universe, recipe) {
            return Turn::Fails(trap);
        }
        self.pass(lane, cost);
        self.built[recipe as usize] = true;
        Turn::Goes
    }
}
