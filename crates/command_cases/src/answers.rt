//! The answers to the questions of cases.

use crate::library::{divided_text, printed_text};
use crate::lives::{cuts_text, drive_text};
use crate::machine::{Parts, parts_of};
use crate::members::member_line;
use crate::outputs::{Failure, Manner};
use crate::replaced::replaced_text;
use crate::runs::{Run, push_cut, push_heads, push_run, run_on, words_of};
use case_files::Case;
use deb_text::cut_at_first;
use std::alloc::{AllocError, Global};
use std::io::Eprint;
use std::str;
use std::sync::Wait;
use std::thread::Threads;

/// What words come to where outputs take bytes in these manners.
fn run_text(
    rt: &(impl Threads + Wait + Eprint + Sync),
    alloc: Global,
    parts: &Parts,
    words: &[&str],
    output: Manner,
    errors: Manner,
) -> Result<Vec<u8>, AllocError> {
    let mut text = Vec::new(alloc);
    push_run(&mut text, &run_on(rt, alloc, parts, words, output, errors))?;
    Ok(text)
}

/// The status, and the first line of each output.
fn heads_text(
    rt: &(impl Threads + Wait + Eprint + Sync),
    alloc: Global,
    parts: &Parts,
    words: &[&str],
) -> Result<Vec<u8>, AllocError> {
    let mut text = Vec::new(alloc);
    let run = run_on(rt, alloc, parts, words, Manner::WHOLE, Manner::WHOLE);
    push_heads(&mut text, &run)?;
    Ok(text)
}

/// Puts what a run comes to whose output fails after so many writes behind a text, unless it is what
/// the last one came to; and tells whether the output was cut.
fn push_stop(
    rt: &(impl Threads + Wait + Eprint + Sync),
    parts: &Parts,
    words: &[&str],
    manner: Manner,
    whole: &[u8],
    stops: &mut Stops,
) -> Result<bool, AllocError> {
    let alloc = *stops.text.allocator();
    let run = run_on(rt, alloc, parts, words, manner, Manner::WHOLE);
    if !run.is_cut {
        push_run(&mut stops.text, &run)?;
        return Ok(false);
    }
    stops.push(cut_text(alloc, &run, whole)?)?;
    Ok(true)
}

/// What runs came to that were cut, and what the last of them did.
#[derive(Drop)]
struct Stops {
    text: Vec<u8>,
    last: Vec<u8>,
}

impl Stops {
    /// Puts what one more came to behind the others, unless it is what the last one did.
    fn push(&mut self, cut: Vec<u8>) -> Result<(), AllocError> {
        if cut != self.last {
            self.text.extend_from_slice(&cut)?;
            self.last = cut;
        }
        Ok(())
    }
}

/// What one run after another comes to: with an output that fails from its first write on, then from
/// its second, and so on up to one that fails in none.
fn push_stops(
    rt: &(impl Threads + Wait + Eprint + Sync),
    parts: &Parts,
    words: &[&str],
    failure: Failure,
    whole: &[u8],
    stops: &mut Stops,
) -> Result<(), AllocError> {
    for writes in 0..u64::MAX {
        let manner = Manner::stops_after(writes, failure);
        if !push_stop(rt, parts, words, manner, whole, stops)? {
            return Ok(());
        }
    }
    Ok(())
}

/// The same, each once where it comes again.
fn stops_text(
    rt: &(impl Threads + Wait + Eprint + Sync),
    alloc: Global,
    parts: &Parts,
    words: &[&str],
    failure: Failure,
) -> Result<Vec<u8>, AllocError> {
    let whole = run_on(rt, alloc, parts, words, Manner::WHOLE, Manner::WHOLE);
    let mut stops = Stops {
        text: Vec::new(alloc),
        last: Vec::new(alloc),
    };
    push_stops(rt, parts, words, failure, &whole.output, &mut stops)?;
    Ok(stops.text)
}

/// The status, and what stands at a path of the answer, which is read as JSON; the path is the
/// first of these words.
fn member_text(
    rt: &(impl Threads + Wait + Eprint + Sync),
    alloc: Global,
    parts: &Parts,
    words: &[&str],
) -> Result<Vec<u8>, AllocError> {
    let Some((path, words)) = words.split_first() else {
        return Vec::from_slice(alloc, b"no path\n");
    };
    let mut run = run_on(rt, alloc, parts, words, Manner::WHOLE, Manner::WHOLE);
    run.output = member_line(alloc, &run.output, path)?;
    let mut text = Vec::new(alloc);
    push_run(&mut text, &run)?;
    Ok(text)
}

fn cut_text(alloc: Global, run: &Run, whole: &[u8]) -> Result<Vec<u8>, AllocError> {
    let mut text = Vec::new(alloc);
    push_cut(&mut text, run, whole)?;
    Ok(text)
}

/// Answers `run`, `narrow`, `mute`, `member`, `heads`, `failing` and `stuck`, each with
/// the words to run.
fn answer_on(
    rt: &(impl Threads + Wait + Eprint + Sync),
    alloc: Global,
    parts: &Parts,
    question: &str,
    words: &[&str],
) -> Result<Vec<u8>, AllocError> {
    let (whole, narrow) = (Manner::WHOLE, Manner::NARROW);
    let mute = Manner::stops_after(0, Failure::Error);
    match question {
        "run" => run_text(rt, alloc, parts, words, whole, whole),
        "narrow" => run_text(rt, alloc, parts, words, narrow, narrow),
        "mute" => run_text(rt, alloc, parts, words, whole, mute),
        "member" => member_text(rt, alloc, parts, words),
        "heads" => heads_text(rt, alloc, parts, words),
        "failing" => stops_text(rt, alloc, parts, words, Failure::Error),
        "cuts" => cuts_text(rt, alloc, parts, words),
        "stuck" => stops_text(rt, alloc, parts, words, Failure::Nothing),
        _ => Vec::from_slice(alloc, b"no such question\n"),
    }
}

/// Answers the question of a case; where it is not known, by a line that says so.
pub fn answer_to(
    rt: &(impl Threads + Wait + Eprint + Sync),
    alloc: Global,
    case: &Case,
) -> Result<Vec<u8>, AllocError> {
    let (question, words) = cut_at_first(b' ', case.question).unwrap_or((case.question, b""));
    let question = str::from_utf8(question).unwrap_or("?");
    let mut parts = parts_of(alloc, &case.input)?;
    let words = words_of(alloc, words)?;
    match question {
        "drive" => drive_text(rt, alloc, &parts, &words, &case.input),
        "printed" => printed_text(alloc, &parts),
        "replaced" => replaced_text(rt, alloc, &mut parts, &words),
        "texts" => divided_text(alloc, &case.input),
        _ => answer_on(rt, alloc, &parts, question, &words),
    }
}
