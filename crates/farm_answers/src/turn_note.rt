//! What is said of a word of a file of lanes that is none.

use crate::turns::WrongTurn;
use deb_text::push_pieces;
use itoa::Buffer;
use plan_reader::Plan;
use shown_text::push_value;
use std::alloc::{AllocError, Global};

/// The most lanes of a plan that are told.
const MOST_LANES: usize = 8;

/// Puts words, and a number behind them, behind a text.
fn push_count(text: &mut Vec<u8>, words: &[u8], number: usize) -> Result<(), AllocError> {
    let mut digits = Buffer::new();
    let number = digits.format(number as u64);
    push_pieces(text, &[words, number.as_bytes()])
}

/// Puts the first lanes of a plan, by their numbers and names, and how many others it has, behind a
/// text.
fn push_lanes(text: &mut Vec<u8>, plan: &Plan) -> Result<(), AllocError> {
    if plan.lanes() == 0 {
        return push_pieces(text, &[b"the plan has none"]);
    }
    let mut joint: &[u8] = b"";
    for number in 0..plan.lanes().min(MOST_LANES) {
        push_count(text, joint, number)?;
        push_pieces(text, &[b" "])?;
        push_value(text, plan.lane(number).name())?;
        joint = b", ";
    }
    if plan.lanes() <= MOST_LANES {
        return Ok(());
    }
    push_count(text, b", and ", plan.lanes() - MOST_LANES)?;
    push_pieces(text, &[b" more"])
}

fn push_turn(text: &mut Vec<u8>, plan: &Plan, turn: WrongTurn<'_>) -> Result<(), AllocError> {
    push_count(text, b"  line ", turn.line)?;
    push_count(text, b", word ", turn.place)?;
    push_pieces(text, &[b": "])?;
    push_value(text, turn.word)?;
    push_pieces(text, &[b" is no lane ("])?;
    push_lanes(text, plan)?;
    push_pieces(text, &[b")\n"])
}

/// The line that tells a word which is no lane: where it stands, and the first lanes of the plan.
/// The program ends with it, and gives its memory back then.
pub fn turn_note<'a>(
    alloc: Global,
    plan: &Plan,
    turn: WrongTurn<'_>,
) -> Result<&'a [u8], AllocError> {
    let mut text = Vec::new(alloc);
    push_turn(&mut text, plan, turn)?;
    Ok(text.leak())
}
