//! What a line that was read does behind the lines before it.

ghost use Rattle.std.specs.Prelude.{◌≡◌, ℕ, List, OnOk};
ghost use Rattle.deb_text.specs.Answers.{Gives, refusal_of};
ghost use Rattle.plan_reader.specs.Drafts.{put, take_block, take_end, take_lane, take_use, unread};
ghost use Rattle.plan_reader.specs.LineErrors.{refusal_of_line};
ghost use Rattle.plan_reader.specs.PlanLines.{no_lines_read, reading_with};
ghost use Rattle.plan_reader.specs.PlanText.{take_line, take_text};
ghost use Rattle.plan_reader.specs.Said.{place, place_instruction, said_at};
ghost use Rattle.plan_reader.specs.View.{named_of, said_of};

use crate::assembly::Assembly;
use crate::error::LineError;
use crate::form::LaneHead;
use crate::line_reading::LineReading;
use crate::names::known_base;
use crate::said::{LineRead, Said, Standing};
use crate::side::Side;
use deb_text::Fault;
use farm_universe::Universe;
use plan_model::Instruction;
use std::alloc::Global;
use std::marker::Model;
use std::mem;

/// What the lines of a plan say so far, and in which branch the next one stands.
#[derive(Drop)]
pub struct Reading {
    pub draft: Assembly,
    pub side: Side,
}

impl Model for Reading {
    ghost use Rattle.plan_reader.specs.Drafts as spec;
    ghost use Rattle.plan_reader.specs.View.{side_of};

    ghost Value = { spec.Reading };

    ghost view = { λ it. record { draft = it.draft; side = side_of it.side } };
}

/// What the lines of a plan say so far, and from which of them its instructions come.
#[derive(Drop)]
pub struct Traced {
    pub reading: Reading,
    pub lines: LineReading,
}

/// Nothing said so far.
pub fn nothing_read(alloc: Global) -> Traced
    ensures reading { result.reading ≡ unread }
    ensures lines { result.lines ≡ no_lines_read }
{
    let reading = Reading {
        draft: Assembly::new(alloc),
        side: Side::Outside,
    };
    Traced {
        reading,
        lines: LineReading::new(alloc),
    }
}

/// Opens a block, where nothing is open.
fn take_block(
    alloc: Global,
    number: u32,
    so_far: &mut Assembly,
    name: &[u8],
) -> Result<(), LineError>
    ensures { Gives refusal_of_line (λ _. so_far.new) result
        (take_block number so_far.old name.now) }
{
    if so_far.is_open() {
        return Err(LineError::BadLine);
    }
    so_far.open_block(alloc, number, name)
}

/// Opens a lane over the base chroot of a name, where nothing is open.
fn take_lane(
    alloc: Global,
    universe: &Universe,
    number: u32,
    so_far: &mut Assembly,
    head: LaneHead<'_>,
) -> Result<(), LineError>
    ensures { Gives refusal_of_line (λ _. so_far.new) result
        (take_lane universe.now number so_far.old head.entry.name.now head.entry.chroot.now
        head.entry.budget) }
{
    if so_far.is_open() {
        return Err(LineError::BadLine);
    }
    let base = known_base(universe, head.chroot)?;
    so_far.open_lane(alloc, number, head.name, head.budget, base)
}

/// Puts what a block stands for into what is open, but into no branch.
fn take_use(alloc: Global, so_far: &mut Reading, name: &[u8]) -> Result<(), LineError>
    ensures { Gives refusal_of_line (λ _. so_far.new) result
        (take_use so_far.old name.now) }
{
    if !so_far.draft.is_open() || !so_far.side.is_outside() {
        return Err(LineError::BadLine);
    }
    so_far.draft.add_use(alloc, name)?;
    so_far.side = Side::Outside;
    Ok(())
}

/// Ends the second branch, or else the open block or lane.
fn take_end(alloc: Global, so_far: &mut Reading) -> Result<(), LineError>
    ensures { Gives refusal_of_line (λ _. so_far.new) result
        (take_end so_far.old.draft so_far.old.side) }
{
    match so_far.side {
        Side::Outside => so_far.draft.end_open(alloc)?,
        Side::First(_) => return Err(LineError::BadLine),
        Side::Second(_) => so_far.draft.add(alloc, Instruction::EndWhen)?,
    }
    so_far.side = Side::Outside;
    Ok(())
}

/// Puts the instruction of the line of this number into what is open.
fn put(
    alloc: Global,
    number: u32,
    before: &mut Reading,
    instruction: Instruction,
) -> Result<(), LineError>
    ensures { Gives refusal_of_line (λ _. before.new) result (put number before.old instruction) }
{
    before.side = before.side.behind(number, &instruction);
    before.draft.add(alloc, instruction)
}

/// Puts an instruction into what is open, where it may stand and its names are known.
fn place_instruction(
    alloc: Global,
    number: u32,
    before: &mut Reading,
    standing: Standing,
    named: Result<Instruction, LineError>,
) -> Result<(), LineError>
    ensures { Gives refusal_of_line (λ _. before.new) result
        (place_instruction number before.old standing (named_of named)) }
{
    if !before.draft.is_open() || !before.side.allows(standing) {
        return Err(LineError::BadLine);
    }
    put(alloc, number, before, named?)
}

/// Goes on by what a line says.
#[tactic(auto, unfolding(crate::specs::Said::place))]
fn place(
    alloc: Global,
    universe: &Universe,
    number: u32,
    so_far: &mut Reading,
    said: Said<'_>,
) -> Result<(), LineError>
    ensures { Gives refusal_of_line (λ _. so_far.new) result
        (place universe.entry.now number so_far.old (said_of said.entry)) }
{
    match said {
        Said::Block(name) => take_block(alloc, number, &mut so_far.draft, name)?,
        Said::Lane(head) => take_lane(alloc, universe, number, &mut so_far.draft, head)?,
        Said::End => return take_end(alloc, so_far),
        Said::Use(name) => return take_use(alloc, so_far, name),
        Said::Instruction(standing, named) => {
            return place_instruction(alloc, number, so_far, standing, named);
        }
    }
    so_far.side = Side::Outside;
    Ok(())
}

/// Goes on by a line that was read, the first fault of the two being told.
fn place_read(
    alloc: Global,
    universe: &Universe,
    number: u32,
    so_far: &mut Traced,
    read: LineRead<'_>,
) -> Result<(), LineError>
    ensures reading { (line : List ℕ)
        → Gives refusal_of_line said_of read.entry (said_at universe.entry.now line)
        → Gives refusal_of_line (λ _. so_far.new.reading) result
        (take_text universe.entry.now number so_far.old.reading line) }
    ensures lines { (line : List ℕ)
        → Gives refusal_of_line said_of read.entry (said_at universe.entry.now line)
        → OnOk result (so_far.new.lines ≡ reading_with so_far.old.lines (number, line)) }
{
    let said = read?;
    let kind = said.kind();
    place(alloc, universe, number, &mut so_far.reading, said)?;
    let before = mem::replace(&mut so_far.lines, LineReading::new(alloc));
    so_far.lines = before.taken(alloc, number, kind)?;
    Ok(())
}

/// Goes on by a line that was read, its fault being told at its number.
///
/// # Errors
///
/// The line's fault; or that memory ran out.
pub fn place_line(
    alloc: Global,
    universe: &Universe,
    number: u32,
    so_far: &mut Traced,
    read: LineRead<'_>,
) -> Result<(), Fault>
    ensures reading { (line : List ℕ)
        → Gives refusal_of_line said_of read.entry (said_at universe.entry.now line)
        → Gives refusal_of (λ _. so_far.new.reading) result
        (take_line universe.entry.now so_far.old.reading (number, line)) }
    ensures lines { (line : List ℕ)
        → Gives refusal_of_line said_of read.entry (said_at universe.entry.now line)
        → OnOk result (so_far.new.lines ≡ reading_with so_far.old.lines (number, line)) }
{
    match place_read(alloc, universe, number, so_far, read) {
        Ok(()) => Ok(()),
        Err(error) => Err(error.at(number)),
    }
}
