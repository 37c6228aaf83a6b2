//! A copy of an instruction.

ghost use Rattle.std.specs.Prelude.{◌≡◌, IfOk};

use deb_relation::Op;
use deb_version::Version;
use plan_model::{Instruction, Members};
use std::alloc::{AllocError, Global};

fn copy_relation(relation: &Option<(Op, Version)>) -> Result<Option<(Op, Version)>, AllocError>
    ensures { IfOk result (λ copy. copy ≡ relation.now) }
{
    match relation {
        Some((op, version)) => Ok(Some((*op, version.clone()?))),
        None => Ok(None),
    }
}

fn copy_members(alloc: Global, members: &Members) -> Result<Members, AllocError>
    ensures { IfOk result (λ copy. copy ≡ members.now) }
{
    Ok(Members::new(Vec::from_slice(alloc, members.as_slice())?))
}

/// A copy of an instruction.
pub fn copy_instruction(alloc: Global, instruction: &Instruction) -> Result<Instruction, AllocError>
    ensures { IfOk result (λ copy. copy ≡ instruction.now) }
{
    match instruction {
        Instruction::Unpack { name, relation } => Ok(Instruction::Unpack {
            name: *name,
            relation: copy_relation(relation)?,
        }),
        Instruction::Configure(members) => {
            Ok(Instruction::Configure(copy_members(alloc, members)?))
        }
        Instruction::Deconfigure(members) => {
            Ok(Instruction::Deconfigure(copy_members(alloc, members)?))
        }
        Instruction::Remove(members) => Ok(Instruction::Remove(copy_members(alloc, members)?)),
        Instruction::Build(recipe) => Ok(Instruction::Build(*recipe)),
        Instruction::Publish(recipe) => Ok(Instruction::Publish(*recipe)),
        Instruction::Wait(entry) => Ok(Instruction::Wait(entry.clone()?)),
        Instruction::When { name, relation } => Ok(Instruction::When {
            name: *name,
            relation: copy_relation(relation)?,
        }),
        Instruction::Otherwise => Ok(Instruction::Otherwise),
        Instruction::EndWhen => Ok(Instruction::EndWhen),
    }
}
