//! Schedules that stand in a file.

ghost use Rattle.std.specs.Prelude.{◌≡◌, IfOk, IfErr};
ghost use Rattle.command_line.specs.Schedule.{lane_at, refusal_of};
ghost use Rattle.deb_text.specs.Common.{Gives, traverse, with_front, words};
ghost use Rattle.farm_answers.specs.Turns.{IsTurnsFault, in_plan, named_from, lane_of_word, placed_from, turn_of, turns_of, words_in, wrong_word};

use crate::fault::OutsideFault;
use crate::turn_note::turn_note;
use command_line::{ScheduleFault, read_lane, space_lanes};
use deb_text::{Class, all_in, next_line, next_word};
use plan_reader::Plan;
use std::alloc::{AllocFailed, Global};

/// A word of a file of lanes that is no lane of the plan. Its line in the file and its place among
/// the words of that line count from 1.
#[derive(Clone, Copy)]
pub struct WrongTurn<'a> {
    pub line: usize,
    pub place: usize,
    pub word: &'a [u8],
}

/// Why a file is not read as a schedule.
#[derive(Clone, Copy)]
pub enum TurnFault<'a> {
    /// Its first word that is no lane of the plan.
    NoLane(WrongTurn<'a>),
    /// Memory ran out.
    Memory,
}

impl<T: Drop> From<AllocFailed<T>> for TurnFault<'_> {
    ghost use Rattle.farm_answers.specs.declared.turns.TurnFault.{TurnFault};

    ghost from_gives = { λ _ fault. fault ≡ TurnFault.Memory };

    fn from(_error: AllocFailed<T>) -> Self {
        TurnFault::Memory
    }
}

/// Reads the number of a lane of the plan.
fn numbered_lane(plan: &Plan, word: &[u8]) -> Result<u32, ScheduleFault>
    ensures { Gives refusal_of (λ lane. lane) result
        (in_plan plan.now.lanes (lane_at word.now)) }
{
    let number = read_lane(word)?;
    if number as usize >= plan.lanes() {
        return Err(ScheduleFault::BadSchedule);
    }
    Ok(number)
}

/// Finds the lane of a name.
fn named_lane(plan: &Plan, name: &[u8]) -> Result<u32, ScheduleFault>
    ensures { Gives refusal_of (λ lane. lane) result (named_from name.now 0 plan.now.lanes) }
{
    for number in 0..plan.lanes() {
        if plan.lane(number).name() == name {
            return Ok(number as u32);
        }
    }
    Err(ScheduleFault::BadSchedule)
}

/// Reads the lane that a word names.
fn read_word(plan: &Plan, word: &[u8]) -> Result<u32, ScheduleFault>
    ensures { Gives refusal_of (λ lane. lane) result (lane_of_word plan.now.lanes word.now) }
{
    if all_in(Class::Digit, word) {
        numbered_lane(plan, word)
    } else {
        named_lane(plan, word)
    }
}

/// Reads the lane that a word names where it stands.
fn read_turn<'a>(plan: &Plan, turn: WrongTurn<'a>) -> Result<u32, TurnFault<'a>>
    ensures { Gives wrong_word (λ lane. lane) result
        (turn_of plan.now.lanes (turn.entry.line, turn.entry.place, turn.entry.word.now)) }
{
    match read_word(plan, turn.word) {
        Ok(lane) => Ok(lane),
        Err(ScheduleFault::BadSchedule) => Err(TurnFault::NoLane(turn)),
        Err(ScheduleFault::Memory) => Err(TurnFault::Memory),
    }
}

/// Reads the lanes that the words of a line name, and puts them behind others.
fn read_words<'a>(
    plan: &Plan,
    turns: &mut Vec<u32>,
    line: usize,
    text: &'a [u8],
) -> Result<(), TurnFault<'a>>
    ensures { Gives wrong_word (λ _. turns.new.items) result (with_front turns.old.items
        (traverse (turn_of plan.now.lanes) (placed_from line 1 (words text.now)))) }
{
    let mut place = 1;
    let mut rest = text;
    while let Some((word, behind)) = next_word(rest) {
        turns.push(read_turn(plan, WrongTurn { line, place, word })?)?;
        place += 1;
        rest = behind;
    }
    Ok(())
}

/// Reads the lanes that the words of a text name.
fn read_lines<'a>(alloc: Global, plan: &Plan, text: &'a [u8]) -> Result<Vec<u32>, TurnFault<'a>>
    ensures { Gives wrong_word (λ turns. turns.items) result
        (traverse (turn_of plan.now.lanes) (words_in text.now)) }
{
    let mut turns = Vec::new(alloc);
    let mut line = 1;
    let mut rest = text;
    while let Some((content, behind)) = next_line(rest) {
        read_words(plan, &mut turns, line, content)?;
        line += 1;
        rest = behind;
    }
    Ok(turns)
}

/// Reads the text of a file of lanes: each by its number in the plan, which is of digits alone, or
/// by its name, with commas, spaces, tabs or newlines between them.
///
/// # Errors
///
/// [`OutsideFault::BadSchedule`] where a word is no lane of the plan, with a line that tells the
/// first such word, and [`OutsideFault::OutOfMemory`] where memory is refused.
#[tactic(auto, unfolding(crate::specs::Turns::turns_of))]
pub fn read_turns<'a>(alloc: Global, plan: &Plan, text: &[u8]) -> Result<Vec<u32>, OutsideFault<'a>>
    ensures read { IfOk result
        (λ turns. turns_of plan.now.lanes text.now ≡ Ok turns.items) }
    ensures refused { IfErr result (IsTurnsFault plan.now.lanes text.now) }
{
    let spaced = space_lanes(alloc, text)?;
    match read_lines(alloc, plan, &spaced) {
        Ok(turns) => Ok(turns),
        Err(TurnFault::NoLane(turn)) => {
            Err(OutsideFault::BadSchedule(turn_note(alloc, plan, turn)?))
        }
        Err(TurnFault::Memory) => Err(OutsideFault::OutOfMemory),
    }
}
