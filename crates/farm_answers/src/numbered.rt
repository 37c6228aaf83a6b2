//! The listing of a plan with the lines of its text.

ghost use Rattle.std.specs.Prelude.{◌≡◌, ◌++◌, ◌+◌, ◌<◌, false, None, Some, IfOk, OnOk};
ghost use Rattle.plan_reader.specs.Listing.{margin, inside_behind, lane_line};
ghost use Rattle.farm_answers.specs.Numbered.{number_text, numbers_before, numbered_lines, numbered_lane};
ghost use Rattle.farm_answers.specs.Numbered.{numbered_listing_of};

use deb_text::push_pieces;
use farm_universe::Universe;
use plan_reader::{
    Instruction, Lane, Plan, PlanLines, inside_behind, margin, push_instruction, push_lane_line,
};
use std::alloc::{AllocError, Global};

fn push_number(alloc: Global, text: &mut Vec<u8>, number: Option<u64>) -> Result<(), AllocError>
    ensures { OnOk result (text.new.items ≡ text.old.items ++ number_text number) }
{
    match number {
        Some(number) => {
            let digits = format!(in alloc; "{}", number)?;
            push_pieces(text, &[digits.as_bytes(), b" "])
        }
        None => push_pieces(text, &[b"- "]),
    }
}

/// The numbers before a line of the listing: that of the instruction, and the line of the text.
fn push_numbers(
    alloc: Global,
    text: &mut Vec<u8>,
    number: Option<u64>,
    line: Option<u32>,
) -> Result<(), AllocError>
    ensures { OnOk result (text.new.items ≡ text.old.items ++ numbers_before number line) }
{
    push_number(alloc, text, number)?;
    push_number(alloc, text, line.map(u64::from))
}

/// The instructions of the lane of a number, behind their numbers.
fn push_lines(
    alloc: Global,
    text: &mut Vec<u8>,
    universe: &Universe,
    instructions: &[Instruction],
    lines: &PlanLines,
    number: usize,
) -> Result<(), AllocError>
    ensures { OnOk result (text.new.items ≡ text.old.items
        ++ numbered_lines universe.now lines.now.lanes number false 0 instructions.now) }
{
    let mut inside = false;
    for place in 0..instructions.len() {
        let instruction = &instructions[place];
        let line = lines.origin(number, place).map(|origin| origin.line);
        push_numbers(alloc, text, Some(place as u64 + 1), line)?;
        text.extend_from_slice(margin(inside, instruction))?;
        push_instruction(text, universe, instruction)?;
        text.extend_from_slice(b"\n")?;
        inside = inside_behind(inside, instruction);
    }
    Ok(())
}

/// The lane of a number.
#[tactic(auto, unfolding(crate::specs::Numbered::numbered_lane))]
fn push_lane(
    alloc: Global,
    text: &mut Vec<u8>,
    universe: &Universe,
    lane: &Lane,
    lines: &PlanLines,
    number: usize,
) -> Result<(), AllocError>
    ensures { OnOk result (text.new.items ≡ text.old.items
        ++ numbered_lane universe.now lines.now.lanes number lane.now) }
{
    push_numbers(alloc, text, None, lines.head(number))?;
    push_lane_line(alloc, text, universe, lane)?;
    push_lines(alloc, text, universe, lane.instructions(), lines, number)?;
    push_numbers(alloc, text, None, lines.end(number))?;
    text.extend_from_slice(b"end\n")?;
    Ok(())
}

/// Prints a plan that was read over this universe as [`listing`](plan_reader::listing) does, and
/// before each line two numbers, a space behind each: that of the instruction in its lane, counted
/// from 1, and the line of the text that it comes from. For a line that is no instruction's `-`
/// stands in place of the first, and for a line that is not known in place of the second.
#[tactic(auto, unfolding(crate::specs::Numbered::numbered_listing_of))]
pub fn numbered_listing(
    alloc: Global,
    universe: &Universe,
    plan: &Plan,
) -> Result<Vec<u8>, AllocError>
    ensures { IfOk result (λ text. text.items
        ≡ numbered_listing_of universe.now plan.now.lanes plan.now.lines) }
{
    let lines = plan.lines();
    let mut text = Vec::new(alloc);
    push_numbers(alloc, &mut text, None, Some(lines.first()))?;
    text.extend_from_slice(b"plan 1\n")?;
    for number in 0..plan.lanes() {
        push_lane(alloc, &mut text, universe, plan.lane(number), lines, number)?;
    }
    Ok(text)
}
