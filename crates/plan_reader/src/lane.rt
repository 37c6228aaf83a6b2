//! A lane of a plan.

ghost use Rattle.std.specs.Prelude.{◌≡◌, ◌∷◌, [], OnOk};
ghost use Rattle.plan_reader.specs.Drafts.{fresh_lane, with_instructions};

use plan_model::Instruction;
use std::alloc::{AllocError, Global};
use std::marker::Model;

/// A lane: the base chroot that it starts in, what it may spend, and its instructions in order.
/// A contract sees them as a record.
#[derive(Drop)]
pub struct Lane {
    name: Vec<u8>,
    base: u32,
    budget: u64,
    instructions: Vec<Instruction>,
}

impl Model for Lane {
    ghost use Rattle.plan_model.specs.Plan as spec;

    ghost Value = { spec.Lane };

    ghost view = { λ lane. record {
      name = lane.name.items;
      base = lane.base;
      budget = lane.budget;
      instructions = lane.instructions.items;
    } };
}

impl Lane {
    /// Makes a lane without instructions.
    pub(crate) fn new(alloc: Global, name: Vec<u8>, base: u32, budget: u64) -> Lane
        ensures { result ≡ fresh_lane name.items base budget }
    {
        Lane {
            name,
            base,
            budget,
            instructions: Vec::new(alloc),
        }
    }

    /// Puts an instruction behind the others.
    pub(crate) fn push(&mut self, instruction: Instruction) -> Result<(), AllocError>
        ensures { OnOk result (self.new ≡ with_instructions self.old (instruction ∷ [])) }
    {
        self.instructions.push(instruction)?;
        Ok(())
    }

    /// Puts instructions behind the others.
    pub(crate) fn append(&mut self, mut instructions: Vec<Instruction>) -> Result<(), AllocError>
        ensures { OnOk result (self.new ≡ with_instructions self.old instructions.items) }
    {
        self.instructions.append(&mut instructions)?;
        Ok(())
    }

    /// The name, a word.
    pub fn name(&self) -> &[u8]
        ensures { result.now ≡ self.now.name }
    {
        &self.name
    }

    /// The number of the base chroot.
    pub fn base(&self) -> u32
        ensures { result ≡ self.now.base }
    {
        self.base
    }

    /// The most steps that the lane may spend.
    pub fn budget(&self) -> u64
        ensures { result ≡ self.now.budget }
    {
        self.budget
    }

    /// The instructions in order.
    pub fn instructions(&self) -> &[Instruction]
        ensures { result.now ≡ self.now.instructions }
    {
        &self.instructions
    }
}
