//! The outputs of a publish.

ghost use Rattle.std.specs.Prelude.{◌≡◌, ◌<◌, ◌≤◌, ◌+◌, ◌^◌, length, slice_get, IfOk};
ghost use Rattle.std.specs.Result.{result_err};
ghost use Rattle.farm_core.specs.Lanes.{IsRun, shown, given_one};
ghost use Rattle.farm_core.specs.Turns.{IsTurn};
ghost use Rattle.farm_model.specs.Common.{outputs, first_trap};
ghost use Rattle.plan_reader.specs.declared.error.TheConstants.{MOST_INSTRUCTIONS};
ghost use Rattle.plan_model.specs.Common.{publish_cost, first_only, publish_traps, publishes, was_built};

use crate::lane::LaneRun;
use crate::turn::Turn;
use farm_universe::{Trap, Universe};
use plan_reader::Lane;

impl LaneRun {
    /// Tells whether the lane has built a recipe.
    fn has_built(&self, recipe: u32) -> bool
        ensures { result ≡ was_built self.now.built.items recipe }
    {
        match self.built.get(recipe as usize) {
            Some(built) => *built,
            None => false,
        }
    }

    /// What the next output of a publish costs: the first one all, the others nothing.
    ///
    /// # Errors
    ///
    /// The first trap of the publish, which is tried with its first output alone.
    #[tactic(auto, unfolding(farm_model::specs::Traps::first_trap))]
    fn output_cost(&self, universe: &Universe, lane: &Lane, recipe: u32) -> Result<u64, Trap>
        ensures trap { result_err result
            ≡ first_trap (publish_traps universe.now lane.now (shown self.now) recipe) }
        ensures cost { IfOk result
            (λ cost. cost ≡ first_only self.now.made (publish_cost universe.now recipe)) }
        ensures fits { IfOk result (λ cost. self.now.spent + cost < 2 ^ 64) }
    {
        let _spent = self.spent;
        if self.made > 0 {
            return Ok(0);
        }
        let cost = universe.outputs(recipe).len() as u64;
        if self.is_over(lane, cost) {
            return Err(Trap::OverBudget); // X14
        }
        if !self.has_built(recipe) {
            return Err(Trap::NotBuilt); // X13
        }
        Ok(cost)
    }

    /// Goes behind one more of so many outputs. The last one ends the publish.
    fn give(&mut self, lane: &Lane, count: usize, cost: u64)
        requires next { self.old.done < length lane.now.instructions }
        requires short { length lane.now.instructions ≤ MOST_INSTRUCTIONS }
        requires fits { self.old.spent + cost < 2 ^ 64 }
        requires more { self.old.made < count }
        ensures { self.new ≡ given_one lane.now count self.old cost }
    {
        if self.made + 1 < count {
            self.made += 1;
            self.spent += cost;
        } else {
            self.pass(lane, cost);
        }
    }

    /// Makes the next output of a publish.
    pub fn publish(&mut self, universe: &Universe, lane: &Lane, recipe: u32) -> Turn
        requires run { IsRun universe.now lane.now self.old }
        requires next { self.old.done < length lane.now.instructions }
        requires short { length lane.now.instructions ≤ MOST_INSTRUCTIONS }
        ensures { IsTurn universe.now lane.now self.old self.new result
            (publishes universe.now lane.now (shown self.old) recipe
            (slice_get (outputs universe.now recipe) self.old.made)) }
    {
        let outputs = universe.outputs(recipe);
        let Some(output) = outputs.get(self.made) else {
            return Turn::Waits;
        };
        match self.output_cost(universe, lane, recipe) {
            Err(trap) => Turn::Fails(trap),
            Ok(cost) => {
                self.give(lane, outputs.len(), cost);
                Turn::Gives(*output)
            }
        }
    }
}
