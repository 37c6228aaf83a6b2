//! The `when` that is open at a place, and what is known behind its branches.

ghost use Rattle.std.specs.Prelude.{◌≡◌};
ghost use Rattle.plan_cert.specs.Opens as spec;

use plan_reader::Instruction;

/// The place of the open `when`, if one is, behind the instruction at a place.
pub fn open_behind(instruction: &Instruction, place: usize, when: Option<usize>) -> Option<usize>
    ensures { result ≡ spec.open_behind place when instruction.now }
{
    match instruction {
        Instruction::When { .. } => Some(place),
        Instruction::EndWhen => None,
        Instruction::Unpack { .. }
        | Instruction::Configure(_)
        | Instruction::Deconfigure(_)
        | Instruction::Remove(_)
        | Instruction::Build(_)
        | Instruction::Publish(_)
        | Instruction::Wait(_)
        | Instruction::Otherwise => when,
    }
}

fn or_here(place: usize, when: Option<usize>) -> usize
    ensures { result ≡ spec.or_here place when }
{
    match when {
        Some(at) => at,
        None => place,
    }
}

/// The place from whose row what is known goes on behind the instruction at a place: behind a
/// branch that ends, that of its `when`.
pub fn place_before(instruction: &Instruction, place: usize, when: Option<usize>) -> usize
    ensures { result ≡ spec.place_before place when instruction.now }
{
    match instruction {
        Instruction::Otherwise | Instruction::EndWhen => or_here(place, when),
        Instruction::Unpack { .. }
        | Instruction::Configure(_)
        | Instruction::Deconfigure(_)
        | Instruction::Remove(_)
        | Instruction::Build(_)
        | Instruction::Publish(_)
        | Instruction::Wait(_)
        | Instruction::When { .. } => place,
    }
}
