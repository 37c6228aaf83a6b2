//! A lane of a plan, as it is looked at.

use plan_model::Instruction;
use std::marker::Model;

/// The parts of a lane: its name, the number of its base chroot, its budget in steps, and its
/// instructions.
#[derive(Drop)]
pub struct LaneParts<'a> {
    pub name: &'a [u8],
    pub base: u32,
    pub budget: u64,
    pub instructions: &'a [Instruction],
}

impl<'a> Model for LaneParts<'a> {
    ghost use Rattle.plan_model.specs.Plan as spec;

    ghost Value = { spec.Lane };

    ghost view = { λ lane. record {
      name = lane.name.now;
      base = lane.base;
      budget = lane.budget;
      instructions = lane.instructions.now;
    } };
}
