//! What words come to where bytes of a file are replaced.

use crate::machine::Parts;
use crate::outputs::Manner;
use crate::runs::{push_first, run_on};
use deb_text::read_number;
use std::alloc::{AllocError, Global};
use std::io::Eprint;
use std::sync::Wait;
use std::thread::Threads;

/// A file of a machine, and the byte that is put in the place of each of its own.
#[derive(Clone, Copy)]
struct Replaced<'w> {
    name: &'w [u8],
    byte: u8,
}

/// Puts the answer to replacing each of these bytes behind a text, as
/// `5 to 8: refused 451 line 1`; nothing where there is no answer.
fn push_answer(
    text: &mut Vec<u8>,
    first: usize,
    last: usize,
    answer: &[u8],
) -> Result<(), AllocError> {
    if answer.is_empty() {
        return Ok(());
    }
    let bytes = format!(in *text.allocator(); "{first} to {last}: ")?;
    text.extend_from_slice(bytes.as_bytes())?;
    text.extend_from_slice(answer)
}

/// The first line of what words come to with one byte replaced, which is then put back.
fn answer_at(
    rt: &(impl Threads + Wait + Eprint + Sync),
    alloc: Global,
    parts: &mut Parts<'_>,
    words: &[&str],
    of: Replaced<'_>,
    at: usize,
) -> Result<Vec<u8>, AllocError> {
    let before = parts.put(of.name, at, of.byte);
    let run = run_on(rt, alloc, parts, words, Manner::WHOLE, Manner::WHOLE);
    parts.put(of.name, at, before);
    let mut line = Vec::new(alloc);
    push_first(&mut line, b"", &run.output)?;
    Ok(line)
}

/// The answers to replacing each byte of a file in turn, in a line for bytes that follow each other
/// and have the same answer. Bytes count from 1.
fn answers_text(
    rt: &(impl Threads + Wait + Eprint + Sync),
    alloc: Global,
    parts: &mut Parts<'_>,
    words: &[&str],
    of: Replaced<'_>,
) -> Result<Vec<u8>, AllocError> {
    let mut text = Vec::new(alloc);
    let mut first = 1;
    let mut answer = Vec::new(alloc);
    let length = parts.text(of.name).len();
    for at in 0..length {
        let next = answer_at(rt, alloc, parts, words, of, at)?;
        if next != answer {
            push_answer(&mut text, first, at, &answer)?;
            first = at + 1;
            answer = next;
        }
    }
    push_answer(&mut text, first, length, &answer)?;
    Ok(text)
}

/// The same, by words of which the first is the number of the byte and the second the file's name.
pub fn replaced_text(
    rt: &(impl Threads + Wait + Eprint + Sync),
    alloc: Global,
    parts: &mut Parts<'_>,
    words: &[&str],
) -> Result<Vec<u8>, AllocError> {
    let [byte, name, words @ ..] = words else {
        return Vec::from_slice(alloc, b"no byte or no file\n");
    };
    let of = Replaced {
        name: name.as_bytes(),
        byte: (read_number(byte.as_bytes()).unwrap_or(0) % 256) as u8,
    };
    answers_text(rt, alloc, parts, words, of)
}
