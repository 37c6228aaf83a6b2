//! Questions about one name of a row.

ghost use Rattle.std.specs.Prelude.{◌≡◌, ◌<◌, length, IfOk};

use crate::answer::Answer;
use crate::two_rows::{row_of, words_of};
use bit_rows::Row;
use std::alloc::{AllocError, Global};

/// The longest row that is made.
const LONGEST: u64 = 65_536;

/// Answers `new`.
pub fn new_row(alloc: Global, n: u64) -> Result<Answer, AllocError> {
    let row = Row::new(alloc, n.min(LONGEST) as usize)?;
    Ok(Answer::Row(words_of(alloc, &row)?))
}

/// Answers `skip`.
pub fn skip(alloc: Global, words: &[u64], from: u64) -> Result<Answer, AllocError> {
    if from > words.len() as u64 {
        return Ok(Answer::NoQuestion);
    }
    let row = row_of(alloc, words)?;
    Ok(Answer::Number(Some(row.skip(from as usize) as u64)))
}

/// Answers questions about a name, and a bit or a word of it.
pub fn answer(
    alloc: Global,
    question: &str,
    words: &[u64],
    name: u64,
    value: u64,
) -> Result<Answer, AllocError> {
    if name >= words.len() as u64 {
        return Ok(Answer::NoQuestion);
    }
    let name = name as usize;
    let row = row_of(alloc, words)?;
    match said_of(question, &row, name, value) {
        Some(said) => Ok(Answer::Holds(said)),
        None => change(alloc, question, row, name, value),
    }
}

/// What the row says to `has`, and its word to `has_all_at`.
fn said_of(question: &str, row: &Row, name: usize, value: u64) -> Option<bool>
    requires { name < length row.now }
{
    match question {
        "has" if value < 64 => Some(row.has(name, value as u32)),
        "has_all_at" => Some(row.word(name) & value == value),
        _ => None,
    }
}

/// Answers `set_bit` and `set_word`.
fn change(
    alloc: Global,
    question: &str,
    mut row: Row,
    name: usize,
    value: u64,
) -> Result<Answer, AllocError>
    requires { name < length row }
{
    match question {
        "set_bit" if value < 64 => row.set_bit(name, value as u32)?,
        "set_word" => row.set_word(name, value)?,
        _ => return Ok(Answer::NoQuestion),
    }
    Ok(Answer::Row(words_of(alloc, &row)?))
}
