//! Answers, and how tables spell them.

use crate::spelling::spelled_row;
use std::alloc::{AllocError, Global};

/// What a question is answered with.
#[derive(Drop)]
pub enum Answer {
    /// What all calls that answer the question say.
    Holds(bool),
    /// What each of them says, where they do not say the same.
    Differs([bool; 3]),
    Row(Vec<u64>),
    Number(Option<u64>),
    /// There is no such question, or no such name.
    NoQuestion,
}

/// What three calls say, that are to say the same.
pub fn agreed(said: [bool; 3]) -> Answer {
    let [first, second, third] = said;
    if first == second && second == third {
        Answer::Holds(first)
    } else {
        Answer::Differs(said)
    }
}

/// The text of an answer: `yes` or `no`, a row, a number, or `none`.
pub fn spelled(alloc: Global, answer: &Answer) -> Result<String, AllocError> {
    match answer {
        Answer::Holds(holds) => String::from_str(alloc, if *holds { "yes" } else { "no" }),
        Answer::Differs(said) => format!(in alloc; "{said:?}"),
        Answer::Row(words) => spelled_row(alloc, words),
        Answer::Number(Some(number)) => format!(in alloc; "{number}"),
        Answer::Number(None) => String::from_str(alloc, "none"),
        Answer::NoQuestion => String::from_str(alloc, "no such question"),
    }
}
