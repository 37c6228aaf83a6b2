//! The listing of a plan.

ghost use Rattle.std.specs.Prelude.{◌≡◌, ◌++◌, codes, map, slice_index_or, [], false, IfOk, OnOk};
ghost use Rattle.std.specs.List.{concat, flat_map};
ghost use Rattle.farm_model.specs.Packages.{base};
ghost use Rattle.plan_reader.specs.Listing.{instruction_text, margin, instruction_line};
ghost use Rattle.plan_reader.specs.Listing.{inside_behind, instruction_lines, lane_line, lane_text, listing_of};

use crate::instructions::push_instruction;
use crate::lane::Lane;
use crate::plan::Plan;
use deb_text::push_pieces;
use farm_universe::Universe;
use plan_model::Instruction;
use std::alloc::{AllocError, Global};

/// The name of a base chroot; nothing for a number that is none.
#[tactic(auto, unfolding(farm_model::specs::Packages::base))]
fn chroot_name(universe: &Universe, number: u32) -> &[u8]
    ensures { result.now ≡ (base universe.now number).name }
{
    if number < universe.bases() {
        universe.base(number).name()
    } else {
        b""
    }
}

/// The spaces in front of an instruction: two, and four inside a branch.
pub fn margin(inside: bool, instruction: &Instruction) -> &'static [u8]
    ensures { result.now ≡ margin inside instruction.now }
{
    match instruction {
        Instruction::Otherwise | Instruction::EndWhen => b"  ",
        Instruction::Unpack { .. }
        | Instruction::Configure(_)
        | Instruction::Deconfigure(_)
        | Instruction::Remove(_)
        | Instruction::Build(_)
        | Instruction::Publish(_)
        | Instruction::Wait(_)
        | Instruction::When { .. } => { if inside { b"    " } else { b"  " } }
    }
}

/// Tells whether the instruction after this one is inside a branch.
pub fn inside_behind(inside: bool, instruction: &Instruction) -> bool
    ensures { result ≡ inside_behind inside instruction.now }
{
    match instruction {
        Instruction::When { .. } => true,
        Instruction::EndWhen => false,
        Instruction::Unpack { .. }
        | Instruction::Configure(_)
        | Instruction::Deconfigure(_)
        | Instruction::Remove(_)
        | Instruction::Build(_)
        | Instruction::Publish(_)
        | Instruction::Wait(_)
        | Instruction::Otherwise => inside,
    }
}

fn push_line(
    text: &mut Vec<u8>,
    universe: &Universe,
    inside: bool,
    instruction: &Instruction,
) -> Result<(), AllocError>
    ensures { OnOk result
        (text.new.items ≡ text.old.items ++ instruction_line universe.now inside instruction.now) }
{
    text.extend_from_slice(margin(inside, instruction))?;
    push_instruction(text, universe, instruction)?;
    text.extend_from_slice(b"\n")?;
    Ok(())
}

fn push_lines(
    text: &mut Vec<u8>,
    universe: &Universe,
    instructions: &[Instruction],
) -> Result<(), AllocError>
    ensures { OnOk result (text.new.items
        ≡ text.old.items ++ instruction_lines universe.now false instructions.now) }
{
    let mut inside = false;
    for instruction in instructions {
        push_line(text, universe, inside, instruction)?;
        inside = inside_behind(inside, instruction);
    }
    Ok(())
}

/// Appends the line that opens a lane.
pub fn push_lane_line(
    alloc: Global,
    text: &mut Vec<u8>,
    universe: &Universe,
    lane: &Lane,
) -> Result<(), AllocError>
    ensures { OnOk result (text.new.items ≡ text.old.items ++ lane_line universe.now lane.now) }
{
    let budget = format!(in alloc; "{}", lane.budget())?;
    let chroot = chroot_name(universe, lane.base());
    push_pieces(
        text,
        &[
            b"lane ",
            lane.name(),
            b" chroot ",
            chroot,
            b" budget ",
            budget.as_bytes(),
            b"\n",
        ],
    )
}

#[tactic(auto, unfolding(crate::specs::Listing::lane_text))]
fn push_lane(
    alloc: Global,
    text: &mut Vec<u8>,
    universe: &Universe,
    lane: &Lane,
) -> Result<(), AllocError>
    ensures { OnOk result (text.new.items ≡ text.old.items ++ lane_text universe.now lane.now) }
{
    push_lane_line(alloc, text, universe, lane)?;
    push_lines(text, universe, lane.instructions())?;
    text.extend_from_slice(b"end\n")?;
    Ok(())
}

/// Prints a plan that was read over this universe: `plan 1`, and for each lane its `lane` line, its
/// instructions indented by two spaces, those of a branch by four, and `end`. Words are separated
/// by one space and alternatives by ` | `; numbers have no leading zeros, and versions stand as
/// they were written.
#[tactic(auto, unfolding(crate::specs::Listing::listing_of))]
pub fn listing(alloc: Global, universe: &Universe, plan: &Plan) -> Result<Vec<u8>, AllocError>
    ensures { IfOk result (λ text. text.items ≡ listing_of universe.now plan.now.lanes) }
{
    let mut text = Vec::from_slice(alloc, b"plan 1\n")?;
    for number in 0..plan.lanes() {
        push_lane(alloc, &mut text, universe, plan.lane(number))?;
    }
    Ok(text)
}
