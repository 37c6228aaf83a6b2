//! The answers to the questions of cases. The text of a case is an index.
//!
//!     encode BUILD HOST              the encoded index, of what builds give
//!     encode-archive BUILD HOST      the same of what is there at the beginning
//!     finish BUILD HOST              an encoded text, finished
//!     farm BUILD HOST                both, one after the other
//!     entries BUILD HOST             the entries of a field
//!     shown BUILD HOST               names, a line each, as people know them

use case_files::{Answers, Case};
use cross_index::{EntriesStop, IndexStop, encode_entries, encode_packages, finish_packages};
use cross_relations::{Sides, push_shown};
use deb_text::next_line;
use std::alloc::{AllocError, Global};

/// The answers of cross_index.
#[derive(Drop)]
pub struct CrossAnswers;

impl<R> Answers<R> for CrossAnswers {
    fn answer_to(&self, _rt: &R, alloc: Global, case: &Case) -> Result<Vec<u8>, AllocError> {
        answer(alloc, case.question, &case.input)
    }
}

/// A line of an answer.
fn line_of(alloc: Global, line: &[u8]) -> Result<Vec<u8>, AllocError> {
    let mut text = Vec::from_slice(alloc, line)?;
    text.extend_from_slice(b"\n")?;
    Ok(text)
}

/// Puts the lines of a text behind an answer, each after `> `.
fn push_lines(answer: &mut Vec<u8>, text: &[u8]) -> Result<(), AllocError> {
    let mut rest = text;
    while let Some((line, behind)) = next_line(rest) {
        answer.extend_from_slice(b"> ")?;
        answer.extend_from_slice(line)?;
        answer.extend_from_slice(b"\n")?;
        rest = behind;
    }
    Ok(())
}

/// Why an index is not encoded.
fn stop_text(alloc: Global, stop: &IndexStop) -> Result<Vec<u8>, AllocError> {
    match stop {
        IndexStop::OutOfMemory => Err(AllocError),
        IndexStop::Unlike(line) => Ok(format!(in alloc; "unlike line {line}\n")?.into_bytes()),
        IndexStop::Refused(refusal) => {
            let (code, line) = (refusal.code, refusal.line);
            let mut text = format!(in alloc; "refused {code} line {line}\n")?.into_bytes();
            push_lines(&mut text, &refusal.about)?;
            Ok(text)
        }
    }
}

/// An index, encoded, and how many of its paragraphs are passed over.
fn encoded_text(
    alloc: Global,
    sides: &Sides,
    is_archive: bool,
    index: &[u8],
) -> Result<Vec<u8>, AllocError> {
    match encode_packages(alloc, sides, is_archive, index) {
        Ok(encoded) => {
            let passed = encoded.passed;
            let mut text = format!(in alloc; "passed {passed}\n")?.into_bytes();
            push_lines(&mut text, &encoded.text)?;
            Ok(text)
        }
        Err(stop) => stop_text(alloc, &stop),
    }
}

/// An encoded text, finished.
fn finished_text(alloc: Global, sides: &Sides, text: &[u8]) -> Result<Vec<u8>, AllocError> {
    match finish_packages(alloc, sides, text) {
        Ok(finished) => {
            let mut lines = Vec::new(alloc);
            push_lines(&mut lines, &finished)?;
            Ok(lines)
        }
        Err(stop) => stop_text(alloc, &stop),
    }
}

/// An index of what is there at the beginning, encoded and finished.
fn farm_text(alloc: Global, sides: &Sides, index: &[u8]) -> Result<Vec<u8>, AllocError> {
    match encode_packages(alloc, sides, true, index) {
        Ok(encoded) => finished_text(alloc, sides, &encoded.text),
        Err(stop) => stop_text(alloc, &stop),
    }
}

/// Entries as a build on the build architecture asks for them.
fn entries_text(alloc: Global, sides: &Sides, text: &[u8]) -> Result<Vec<u8>, AllocError> {
    match encode_entries(alloc, sides, text) {
        Ok(made) => line_of(alloc, &made),
        Err(EntriesStop::OutOfMemory) => Err(AllocError),
        Err(EntriesStop::Unlike) => line_of(alloc, b"unlike"),
        Err(EntriesStop::Refused(code)) => {
            Ok(format!(in alloc; "refused {code}\n")?.into_bytes())
        }
    }
}

/// Names as people know them.
fn shown_text(alloc: Global, sides: &Sides, names: &[u8]) -> Result<Vec<u8>, AllocError> {
    let mut text = Vec::new(alloc);
    let mut rest = names;
    while let Some((name, behind)) = next_line(rest) {
        push_shown(&mut text, sides, name)?;
        text.extend_from_slice(b"\n")?;
        rest = behind;
    }
    Ok(text)
}

/// The words of a question.
fn words_of<'a>(alloc: Global, question: &'a [u8]) -> Result<Vec<&'a [u8]>, AllocError> {
    let mut words = Vec::new(alloc);
    for word in question.split(|byte| *byte == b' ') {
        words.push(word)?;
    }
    Ok(words)
}

fn answer(alloc: Global, question: &[u8], input: &[u8]) -> Result<Vec<u8>, AllocError> {
    let words = words_of(alloc, question)?;
    let [verb, build, host] = words.as_slice() else {
        return line_of(alloc, b"no such question");
    };
    match Sides::new(*build, *host) {
        Some(sides) => answer_for(alloc, *verb, &sides, input),
        None => line_of(alloc, b"no such architectures"),
    }
}

fn answer_for(
    alloc: Global,
    verb: &[u8],
    sides: &Sides,
    input: &[u8],
) -> Result<Vec<u8>, AllocError> {
    if verb == b"encode".as_slice() {
        return encoded_text(alloc, sides, false, input);
    }
    if verb == b"encode-archive".as_slice() {
        return encoded_text(alloc, sides, true, input);
    }
    if verb == b"finish".as_slice() {
        return finished_text(alloc, sides, input);
    }
    if verb == b"farm".as_slice() {
        return farm_text(alloc, sides, input);
    }
    if verb == b"entries".as_slice() {
        return entries_text(alloc, sides, input);
    }
    if verb == b"shown".as_slice() {
        return shown_text(alloc, sides, input);
    }
    line_of(alloc, b"no such question")
}
