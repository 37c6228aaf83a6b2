//! Tables of cases.
//!
//! A case is a line of columns, divided by one or more tabs: a question, its arguments and the
//! wanted answer. Lines that begin with `|` are the lines of the text that the cases below them
//! speak of. Empty lines and lines that begin with `#` are skipped.

ghost use denote.Param.Send.{IsSync};

use crate::escapes::unescaped;
use crate::run::print_judged;
use deb_text::{is_comment, next_line};
use std::alloc::{AllocError, Global};
use std::env::{self, Env};
use std::rt::Files;
use std::{fs, io, str};

/// A question of a table.
#[derive(Clone, Copy)]
pub struct TableRow<'a> {
    /// The text above it.
    pub text: &'a [u8],
    pub question: &'a str,
    args: &'a [Vec<u8>],
}

impl<'a> TableRow<'a> {
    /// The argument at a place, from 0 on; empty where there is none.
    pub fn arg(&self, place: usize) -> &'a [u8] {
        match self.args.get(place) {
            Some(arg) => arg,
            None => b"",
        }
    }

    /// That argument as a word; empty where it is no text.
    pub fn word(&self, place: usize) -> &'a str {
        str::from_utf8(self.arg(place)).unwrap_or("")
    }
}

/// What answers the questions of tables with a handle, which threads may share.
pub trait TableAnswers<R> {
    /// Answers a question; where it is not known, by a text that says so.
    fn answer_to(&self, rt: &R, alloc: Global, row: TableRow) -> Result<Vec<u8>, AllocError>
        requires { IsSync R.row };
}

/// The text that cases speak of.
#[derive(Drop)]
struct Text {
    bytes: Vec<u8>,
    /// A further line belongs to this text.
    is_open: bool,
}

impl Text {
    fn push_line(&mut self, line: &[u8]) -> Result<(), AllocError> {
        if self.is_open {
            self.bytes.push(b'\n')?;
        } else {
            self.bytes.clear();
            self.is_open = true;
        }
        let line = unescaped(*self.bytes.allocator(), line)?;
        self.bytes.extend_from_slice(&line)
    }
}

/// The columns of a line.
pub fn columns_of(alloc: Global, line: &[u8]) -> Result<Vec<Vec<u8>>, AllocError> {
    let mut columns = Vec::new(alloc);
    for column in line.split(|byte| *byte == b'\t') {
        if !column.is_empty() {
            columns.push(unescaped(alloc, column)?)?;
        }
    }
    Ok(columns)
}

/// The question of a line's columns about a text, and the wanted answer.
pub fn row_of<'a>(text: &'a [u8], columns: &'a [Vec<u8>]) -> Option<(TableRow<'a>, &'a [u8])> {
    let [question, args @ .., want] = columns else {
        return None;
    };
    let question = str::from_utf8(question).unwrap_or("?");
    let row = TableRow {
        text,
        question,
        args,
    };
    Some((row, want))
}

/// Prints of a case whether its answer is the wanted one.
fn tell_case<R: Print + AllocGlobal + Sync, A: TableAnswers<R>>(
    rt: &R,
    answers: &A,
    text: &[u8],
    columns: &[Vec<u8>],
) -> io::Result<()> {
    match row_of(text, columns) {
        Some((row, want)) => print_judged(rt, want, &answers.answer_to(rt, rt.alloc(), row)?),
        None => println!(rt; "too few columns"),
    }
}

/// Takes a line of a table: a line of the text, or one that ends it and may be a case.
fn take_line<R: Print + AllocGlobal + Sync, A: TableAnswers<R>>(
    rt: &R,
    answers: &A,
    file: &str,
    number: u64,
    text: &mut Text,
    line: &[u8],
) -> io::Result<()> {
    if let Some(rest) = line.strip_prefix(b"|") {
        text.push_line(rest)?;
        return Ok(());
    }
    text.is_open = false;
    if line.is_empty() || is_comment(line) {
        return Ok(());
    }
    print!(rt; "{file}:{number}: ")?;
    tell_case(rt, answers, &text.bytes, &columns_of(rt.alloc(), line)?)
}

/// Prints of each case of a table whether its answer is the wanted one.
///
/// # Errors
///
/// Where the output cannot be written, or memory is refused.
pub fn tell_table<R: Print + AllocGlobal + Sync, A: TableAnswers<R>>(
    rt: &R,
    answers: &A,
    file: &str,
    table: &[u8],
) -> io::Result<()> {
    let mut text = Text {
        bytes: Vec::new(rt.alloc()),
        is_open: false,
    };
    let mut rest = table;
    let mut number = 0u64;
    while let Some((line, behind)) = next_line(rest) {
        number = number.saturating_add(1);
        take_line(rt, answers, file, number, &mut text, line)?;
        rest = behind;
    }
    Ok(())
}

/// Prints of each case of the tables that the program's words name whether its answer is the wanted
/// one.
///
/// # Errors
///
/// Where a word is no text, a file cannot be read, the output not be written, or memory is refused.
pub fn run_tables<R: Env + Files + Print + AllocGlobal + Sync, A: TableAnswers<R>>(
    rt: &R,
    answers: &A,
) -> io::Result<()> {
    for word in env::args(rt)?.skip(1) {
        tell_table(rt, answers, word.as_str(), &fs::read(rt, word.as_str())?)?;
    }
    Ok(())
}
