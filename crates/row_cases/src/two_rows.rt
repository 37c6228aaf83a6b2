//! Questions about two rows, put to the kernels, to rows, and to a row and words.

ghost use Rattle.std.specs.Prelude.{◌≡◌, length, IfOk};

use crate::answer::{Answer, agreed};
use bit_rows::Row;
use clause_kernel as kernel;
use std::alloc::{AllocError, Global};

/// The row of these words.
pub fn row_of(alloc: Global, words: &[u64]) -> Result<Row, AllocError>
    ensures { IfOk result (λ row. length row ≡ length words.now) }
{
    let mut row = Row::new(alloc, words.len())?;
    for (name, word) in words.iter().enumerate() {
        row.set_word(name, *word)?;
    }
    Ok(row)
}

/// The words of a row.
pub fn words_of(alloc: Global, row: &Row) -> Result<Vec<u64>, AllocError> {
    (0..row.len()).map(|name| row.word(name)).collect(alloc)
}

/// Answers `hits`, `met`, `within` and `same`, or what changes a row.
pub fn answer(alloc: Global, question: &str, a: &[u64], b: &[u64]) -> Result<Answer, AllocError> {
    if a.len() != b.len() {
        return Ok(Answer::NoQuestion);
    }
    let (x, y) = (row_of(alloc, a)?, row_of(alloc, b)?);
    match said_of(question, a, &x, b, &y) {
        Some(said) => Ok(agreed(said)),
        None => change(alloc, question, x, &y),
    }
}

/// Tells whether a row has all variants of these words, name by name.
fn has_each(row: &Row, words: &[u64]) -> bool {
    for (name, word) in words.iter().enumerate() {
        if name >= row.len() || row.word(name) & *word != *word {
            return false;
        }
    }
    true
}

/// What kernels say to `hits`, `met`, `within` and `same` over words, and rows over the same words.
fn said_of(question: &str, a: &[u64], x: &Row, b: &[u64], y: &Row) -> Option<[bool; 3]>
    requires words { length a.now ≡ length b.now }
    requires first { length x.now ≡ length a.now }
    requires second { length y.now ≡ length b.now }
{
    match question {
        "hits" => Some([kernel::hits(a, b), x.hits(y), y.is_hit_by(a)]),
        "met" => Some([kernel::met(a, b), x.met(y), y.is_met_by(a)]),
        "within" => Some([kernel::within(a, b), x.within(y), has_each(y, a)]),
        "same" => Some([kernel::same(a, b), x.same(y), y.same(x)]),
        _ => None,
    }
}

/// Answers `or_into`, `and_into` and `take_out`.
fn change(alloc: Global, question: &str, mut x: Row, y: &Row) -> Result<Answer, AllocError>
    requires { length x ≡ length y.now }
{
    match question {
        "or_into" => x.or_into(y)?,
        "and_into" => x.and_into(y),
        "take_out" => x.take_out(y),
        _ => return Ok(Answer::NoQuestion),
    }
    Ok(Answer::Row(words_of(alloc, &x)?))
}
