//! Where a lane goes on: it stands at no `else` and at no `end` of a branch.

ghost use Rattle.std.specs.Prelude.{◌≡◌, ◌<◌, ◌≤◌, drop, length};
ghost use Rattle.plan_reader.specs.Landings.{is_otherwise, is_end_when};
ghost use Rattle.plan_model.specs.Branches as branches;
ghost use Rattle.plan_model.specs.Plan as plan;

use crate::lane::Lane;
use plan_model::Instruction;

/// Tells whether an instruction is an `else`.
fn is_otherwise(instruction: &Instruction) -> bool
    ensures { result ≡ is_otherwise instruction.now }
{
    matches!(instruction, Instruction::Otherwise)
}

/// Tells whether an instruction is the `end` of a branch.
fn is_end_when(instruction: &Instruction) -> bool
    ensures { result ≡ is_end_when instruction.now }
{
    matches!(instruction, Instruction::EndWhen)
}

/// The place behind the next `else`, from a place on.
fn past_else(instructions: &[Instruction], place: usize) -> usize
    requires { place ≤ length instructions.now }
    ensures place { result ≡ branches.past_else (drop place instructions.now) place }
    ensures within { result ≤ length instructions.now }
{
    for next in place..instructions.len() {
        if is_otherwise(&instructions[next]) {
            return next + 1;
        }
    }
    instructions.len()
}

/// The place behind the next `end`, from a place on.
fn past_end(instructions: &[Instruction], place: usize) -> usize
    requires { place ≤ length instructions.now }
    ensures place { result ≡ branches.past_end (drop place instructions.now) place }
    ensures within { result ≤ length instructions.now }
{
    for next in place..instructions.len() {
        if is_end_when(&instructions[next]) {
            return next + 1;
        }
    }
    instructions.len()
}

/// Where a lane that comes to a place goes on.
fn landing(instructions: &[Instruction], place: usize) -> usize
    requires { place ≤ length instructions.now }
    ensures place { result ≡ branches.landing instructions.now place }
    ensures within { result ≤ length instructions.now }
{
    if place >= instructions.len() {
        return place;
    }
    let instruction = &instructions[place];
    if is_otherwise(instruction) {
        return past_end(instructions, place + 1);
    }
    if is_end_when(instruction) {
        return place + 1;
    }
    place
}

impl Lane {
    /// Where the lane stands once the instruction at a place is done.
    pub fn next_place(&self, place: usize) -> usize
        requires { place < length self.now.instructions }
        ensures place { result ≡ plan.next_place self.now place }
        ensures within { result ≤ length self.now.instructions }
    {
        landing(self.instructions(), place + 1)
    }

    /// Where a `when` at a place that does not hold leads to: to its second branch.
    pub fn else_place(&self, place: usize) -> usize
        requires { place < length self.now.instructions }
        ensures place { result ≡ plan.else_place self.now place }
        ensures within { result ≤ length self.now.instructions }
    {
        let instructions = self.instructions();
        landing(instructions, past_else(instructions, place + 1))
    }
}
