//! What a line of a driver says.

ghost use Rattle.std.specs.Prelude.{◌≡◌};
ghost use Rattle.drive_protocol.specs.AnswerText.{answer_by, answer_of, asked_at, named_from};
ghost use Rattle.drive_protocol.specs.declared.answer.Answer.TheVariants.{Done, Failed};

use deb_text::{next_word, read_number};
use plan_reader::Plan;

/// What a line of a driver says. Lanes are numbered from 0 in file order.
#[derive(Clone, Copy, PartialEq, Eq)]
pub enum Answer {
    /// The lane's instruction of this number is done.
    Done { lane: u32, number: u64 },
    /// It cannot be done.
    Failed { lane: u32, number: u64 },
    /// Nothing more is to be asked.
    Stop,
    /// The line is blank.
    Nothing,
    /// The line is no answer.
    Bad,
}

/// The number of the first lane of this name.
pub fn lane_named(plan: &Plan, name: &[u8]) -> Option<u32>
    ensures { result ≡ named_from name.now 0 plan.now.lanes }
{
    for number in 0..plan.lanes() {
        if plan.lane(number).name() == name {
            return Some(number as u32);
        }
    }
    None
}

/// The instruction that an answer is about: the name of a lane, and a number.
fn asked_at(plan: &Plan, lane: &[u8], number: &[u8]) -> Option<(u32, u64)>
    ensures { result ≡ asked_at plan.now.lanes lane.now number.now }
{
    let lane = lane_named(plan, lane)?;
    let number = read_number(number)?;
    Some((lane, number))
}

fn done_at(asked: Option<(u32, u64)>) -> Answer
    ensures { result ≡ answer_by asked (λ l n. Done l n) }
{
    match asked {
        Some((lane, number)) => Answer::Done { lane, number },
        None => Answer::Bad,
    }
}

fn failed_at(asked: Option<(u32, u64)>) -> Answer
    ensures { result ≡ answer_by asked (λ l n. Failed l n) }
{
    match asked {
        Some((lane, number)) => Answer::Failed { lane, number },
        None => Answer::Bad,
    }
}

/// Reads a line: `done LANE NUMBER`, `failed LANE NUMBER` with any words behind it, or `stop`.
#[tactic(auto, unfolding(crate::specs::AnswerText::answer_of))]
pub fn read_answer(plan: &Plan, line: &[u8]) -> Answer
    ensures { result ≡ answer_of plan.now.lanes line.now }
{
    let Some((verb, rest)) = next_word(line) else {
        return Answer::Nothing;
    };
    let Some((lane, rest)) = next_word(rest) else {
        return if verb == b"stop".as_slice() {
            Answer::Stop
        } else {
            Answer::Bad
        };
    };
    let Some((number, rest)) = next_word(rest) else {
        return Answer::Bad;
    };
    if verb == b"failed".as_slice() {
        return failed_at(asked_at(plan, lane, number));
    }
    if verb == b"done".as_slice() && next_word(rest).is_none() {
        return done_at(asked_at(plan, lane, number));
    }
    Answer::Bad
}
