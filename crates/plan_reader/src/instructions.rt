//! Instructions, as the listing of a plan spells them.

ghost use Rattle.std.specs.Prelude.{◌≡◌, ◌++◌, OnOk};
ghost use Rattle.plan_reader.specs.Listing.{names_text, instruction_text};

use crate::relations::{push_entry, push_relation};
use crate::variants::name_of;
use deb_relation::view_relation;
use deb_text::push_pieces;
use farm_universe::Universe;
use plan_model::Instruction;
use std::alloc::AllocError;

fn push_set(
    text: &mut Vec<u8>,
    universe: &Universe,
    word: &[u8],
    members: &[u32],
) -> Result<(), AllocError>
    ensures { OnOk result
        (text.new.items ≡ text.old.items ++ (word.now ++ names_text universe.now members.now)) }
{
    text.extend_from_slice(word)?;
    for i in 0..members.len() {
        push_pieces(text, &[b" ", name_of(universe, members[i])])?;
    }
    Ok(())
}

/// Appends an instruction to a text, as the listing has it, without its margin.
#[tactic(auto, unfolding(crate::specs::Listing::instruction_text))]
pub fn push_instruction(
    text: &mut Vec<u8>,
    universe: &Universe,
    instruction: &Instruction,
) -> Result<(), AllocError>
    ensures { OnOk result
        (text.new.items ≡ text.old.items ++ instruction_text universe.now instruction.now) }
{
    match instruction {
        Instruction::Unpack { name, relation } => {
            push_pieces(text, &[b"unpack ", name_of(universe, *name)])?;
            push_relation(text, view_relation(relation))
        }
        Instruction::Configure(members) => {
            push_set(text, universe, b"configure", members.as_slice())
        }
        Instruction::Deconfigure(members) => {
            push_set(text, universe, b"deconfigure", members.as_slice())
        }
        Instruction::Remove(members) => push_set(text, universe, b"remove", members.as_slice()),
        Instruction::Build(recipe) => push_pieces(
            text,
            &[b"build ", universe.recipe_name(*recipe)],
        ),
        Instruction::Publish(recipe) => {
            push_pieces(text, &[b"publish ", universe.recipe_name(*recipe)])
        }
        Instruction::Wait(entry) => {
            text.extend_from_slice(b"wait ")?;
            push_entry(text, entry)
        }
        Instruction::When { name, relation } => {
            push_pieces(text, &[b"when ", name_of(universe, *name)])?;
            push_relation(text, view_relation(relation))
        }
        Instruction::Otherwise => push_pieces(text, &[b"else"]),
        Instruction::EndWhen => push_pieces(text, &[b"end"]),
    }
}
