//! The questions of tables.

use crate::answer::{Answer, spelled};
use crate::spelling::{read_number, read_row};
use crate::{one_name, stages, two_rows};
use bit_rows::newest;
use case_files::{TableAnswers, TableRow};
use std::alloc::{AllocError, Global};

/// The answers of kernels, rows and choices of builds.
#[derive(Drop)]
pub struct RowAnswers;

impl<R> TableAnswers<R> for RowAnswers {
    fn answer_to(&self, _rt: &R, alloc: Global, row: TableRow) -> Result<Vec<u8>, AllocError> {
        match stages::answer(alloc, row)? {
            Some(text) => Ok(text),
            None => Ok(spelled(alloc, &answer(alloc, row)?)?.into_bytes()),
        }
    }
}

/// Answers `new LENGTH`, `newest WORD MASK`, `skip ROW NAME`, and questions about two rows, or
/// about a row, a name, and a bit or a word of it.
fn answer(alloc: Global, row: TableRow) -> Result<Answer, AllocError> {
    match row.question {
        "new" => one_name::new_row(alloc, read_number(row.arg(0))),
        "newest" => Ok(newest_of(read_number(row.arg(0)), read_number(row.arg(1)))),
        "skip" => one_name::skip(
            alloc,
            &read_row(alloc, row.arg(0))?,
            read_number(row.arg(1)),
        ),
        _ if row.arg(2).is_empty() => of_two_rows(alloc, row),
        _ => of_one_name(alloc, row),
    }
}

fn of_two_rows(alloc: Global, row: TableRow) -> Result<Answer, AllocError> {
    let first = read_row(alloc, row.arg(0))?;
    let second = read_row(alloc, row.arg(1))?;
    two_rows::answer(alloc, row.question, &first, &second)
}

fn of_one_name(alloc: Global, row: TableRow) -> Result<Answer, AllocError> {
    let words = read_row(alloc, row.arg(0))?;
    let (name, value) = (read_number(row.arg(1)), read_number(row.arg(2)));
    one_name::answer(alloc, row.question, &words, name, value)
}

fn newest_of(word: u64, mask: u64) -> Answer {
    match newest(word, mask) {
        Some(bit) => Answer::Number(Some(u64::from(bit))),
        None => Answer::Number(None),
    }
}
