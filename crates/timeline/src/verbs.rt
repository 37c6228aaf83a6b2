//! The words of instructions.

use plan_reader::Instruction;

/// The word that an instruction begins with.
pub(crate) fn verb(instruction: &Instruction) -> &'static [u8] {
    match instruction {
        Instruction::Unpack { .. } => b"unpack",
        Instruction::Configure(_) => b"configure",
        Instruction::Deconfigure(_) => b"deconfigure",
        Instruction::Remove(_) => b"remove",
        Instruction::Build(_) => b"build",
        Instruction::Publish(_) => b"publish",
        Instruction::Wait(_) => b"wait",
        Instruction::When { .. } => b"when",
        Instruction::Otherwise => b"else",
        Instruction::EndWhen => b"end",
    }
}

/// The recipe that an instruction builds or publishes.
pub(crate) fn recipe_of(instruction: &Instruction) -> Option<u32> {
    match instruction {
        Instruction::Build(recipe) | Instruction::Publish(recipe) => Some(*recipe),
        _ => None,
    }
}
