//! What words come to on a machine in memory, as cases write it.

use crate::machine::{Driver, Machine, Parts};
use crate::outputs::{Manner, Output};
use crate::stage::Stage;
use deb_text::next_line;
use farm_commands::run_words;
use report_sink::{Sink, WriteSink};
use std::alloc::{AllocError, Global};
use std::io::Eprint;
use std::str;
use std::sync::Wait;
use std::thread::Threads;

/// What words come to.
#[derive(Drop)]
pub struct Run {
    pub status: u8,
    /// Whether a write of the output failed.
    pub is_cut: bool,
    pub output: Vec<u8>,
    pub errors: Vec<u8>,
    /// What was done with files.
    pub done: Vec<u8>,
}

/// Reads words as cases write them: divided by spaces, and `""` for the empty one.
pub fn words_of(alloc: Global, text: &[u8]) -> Result<Vec<&str>, AllocError> {
    let mut words = Vec::new(alloc);
    for piece in text.split(|byte| *byte == b' ') {
        match piece {
            b"" => {}
            b"\"\"" => words.push("")?,
            _ => words.push(str::from_utf8(piece).unwrap_or("?"))?,
        }
    }
    Ok(words)
}

/// Runs the program on a machine.
pub fn run_on(
    rt: &(impl Threads + Wait + Eprint + Sync),
    alloc: Global,
    parts: &Parts,
    words: &[&str],
    output: Manner,
    errors: Manner,
) -> Run {
    let mut out = WriteSink::new(Output::new(alloc, output));
    let mut told = WriteSink::new(Output::new(alloc, errors));
    let stage = Stage::new(rt, alloc, b"close\n", Vec::new(alloc));
    let driver = Driver {
        stage: &stage,
        most_entries: usize::MAX,
        is_locked: false,
    };
    let mut machine = Machine::new(alloc, parts, driver);
    let status = run_words(rt, alloc, words, &mut machine, &mut out, &mut told);
    Run {
        status,
        is_cut: out.has_failed(),
        output: out.into_inner().into_taken(),
        errors: told.into_inner().into_taken(),
        done: machine.into_done(),
    }
}

/// Puts a line behind a text, with a mark ahead of it.
fn push_line(text: &mut Vec<u8>, mark: &[u8], line: &[u8]) -> Result<(), AllocError> {
    text.extend_from_slice(mark)?;
    text.extend_from_slice(line)?;
    text.extend_from_slice(b"\n")
}

/// Puts the lines of a text behind another.
pub fn push_lines(text: &mut Vec<u8>, mark: &[u8], lines: &[u8]) -> Result<(), AllocError> {
    let mut rest = lines;
    while let Some((line, behind)) = next_line(rest) {
        push_line(text, mark, line)?;
        rest = behind;
    }
    if !lines.is_empty() && !lines.ends_with(b"\n") {
        text.extend_from_slice(b"no newline\n")?;
    }
    Ok(())
}

/// Puts the first line of a text behind another, where it has one.
pub fn push_first(text: &mut Vec<u8>, mark: &[u8], lines: &[u8]) -> Result<(), AllocError> {
    match next_line(lines) {
        Some((line, _)) => push_line(text, mark, line),
        None => Ok(()),
    }
}

fn push_status(text: &mut Vec<u8>, run: &Run) -> Result<(), AllocError> {
    let line = format!(in *text.allocator(); "status {}\n", run.status)?;
    text.extend_from_slice(line.as_bytes())
}

/// Puts what words came to behind a text: the status, the lines of the output and of the error
/// output.
pub fn push_run(text: &mut Vec<u8>, run: &Run) -> Result<(), AllocError> {
    push_status(text, run)?;
    push_lines(text, b"| ", &run.output)?;
    push_lines(text, b"! ", &run.errors)?;
    text.extend_from_slice(&run.done)
}

/// The same with the first line of each output alone.
pub fn push_heads(text: &mut Vec<u8>, run: &Run) -> Result<(), AllocError> {
    push_status(text, run)?;
    push_first(text, b"| ", &run.output)?;
    push_first(text, b"! ", &run.errors)
}

/// The same of a run whose output was cut: in place of its lines whether it is a first part of the
/// whole one.
pub fn push_cut(text: &mut Vec<u8>, run: &Run, whole: &[u8]) -> Result<(), AllocError> {
    push_status(text, run)?;
    let is_part = whole.starts_with(&run.output) && run.output.len() < whole.len();
    text.extend_from_slice(if is_part {
        b"first part\n".as_slice()
    } else {
        b"no first part\n".as_slice()
    })?;
    push_lines(text, b"! ", &run.errors)
}
