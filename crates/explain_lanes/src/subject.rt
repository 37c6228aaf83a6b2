//! What notes are about, with what they go by, and where the variants of a universe are published.

ghost use Rattle.std.specs.Prelude.{◌≡◌, ◌<◌, ◌+◌, length};
ghost use Rattle.plan_model.specs.Plan as model;

use crate::text::Piece;
use farm_universe::{Universe, Variant};
use known_rows::Outputs;
use plan_reader::{Instruction, Plan};
use sat_rows::Tables;
use std::alloc::{AllocError, Global};
use std::collections::HashMap;

/// A plan over a universe with its rows, with its outputs and where it publishes what, and the
/// memory that notes take.
#[derive(Clone, Copy)]
pub struct Subject<'a> {
    pub alloc: Global,
    pub universe: &'a Universe,
    pub tables: &'a Tables,
    pub plan: &'a Plan,
    pub outputs: &'a Outputs,
    pub publications: &'a Publications,
    ghost tables_are: { tables.now ≡ universe.now },
    ghost outputs_are: { (outputs.now.universe ≡ universe.now) × (outputs.now.plan ≡ plan.now.lanes) },
}

/// An instruction of it by its lane and its place there.
#[derive(Clone, Copy)]
pub struct Spot<'a> {
    pub of: Subject<'a>,
    pub lane: usize,
    pub place: usize,
    ghost in_plan: { lane < length of.plan.now.lanes },
    ghost in_lane: { place < length (model.lane of.plan.now.lanes lane).instructions },
}

impl<'a> Spot<'a> {
    /// The instructions of its lane.
    pub fn instructions(self) -> &'a [Instruction]
        ensures { result.now
            ≡ (model.lane self.entry.of.plan.now.lanes self.entry.lane).instructions }
    {
        self.of.plan.lane(self.lane).instructions()
    }

    /// Its number in its lane, from 1.
    pub fn number(self) -> usize
        ensures { result ≡ self.entry.place + 1 }
    {
        let count = self.instructions().len();
        prove!(self.place < count);
        self.place + 1
    }

    /// Tells whether it is an unpack.
    pub fn is_unpack(self) -> bool {
        matches!(&self.instructions()[self.place], Instruction::Unpack { .. })
    }
}

/// Where a variant is published: the lane's number, the instruction's, from 1, and the recipe.
#[derive(Clone, Copy)]
pub struct Publication {
    pub lane: usize,
    pub instruction: usize,
    pub recipe: u32,
}

impl Publication {
    /// The instruction as a piece of a line.
    pub(crate) fn piece(self) -> Piece<'static> {
        Piece::At(self.lane, self.instruction.saturating_sub(1))
    }
}

/// Where each variant is published.
#[derive(Drop)]
pub struct Publications {
    places: HashMap<(u32, u32), Publication>,
}

impl Publications {
    /// Where a variant is published, if it is.
    pub fn of(&self, variant: Variant) -> Option<Publication> {
        self.places.get(&(variant.name, variant.bit)).copied()
    }

    /// Finds where the lanes of a plan publish what.
    pub fn of_plan(
        alloc: Global,
        universe: &Universe,
        plan: &Plan,
    ) -> Result<Publications, AllocError> {
        let mut places = HashMap::new(alloc);
        for lane in 0..plan.lanes() {
            let instructions = plan.lane(lane).instructions();
            for at in 0..instructions.len() {
                let Instruction::Publish(recipe) = instructions[at] else {
                    continue;
                };
                let instruction = at + 1;
                for output in universe.outputs(recipe) {
                    let place = Publication {
                        lane,
                        instruction,
                        recipe,
                    };
                    places.insert((output.name, output.bit), place)?;
                }
            }
        }
        Ok(Publications { places })
    }
}
