//! Drives, one behind the other over one journal, as cases have them.

use crate::machine::{Driver, Machine, Parts};
use crate::outputs::{Manner, Output};
use crate::runs::{Run, push_run};
use crate::stage::Stage;
use crate::streams::StageOutput;
use deb_text::{next_line, next_word, read_number};
use drive_journal::{Said, read_entry, whole_part};
use farm_commands::run_words;
use report_sink::WriteSink;
use std::alloc::{AllocError, Global};
use std::io::Eprint;
use std::sync::Wait;
use std::thread::Threads;

/// A life of a drive: what its driver does, and what fails in it.
#[derive(Clone, Copy)]
struct Life<'c> {
    steps: &'c [u8],
    /// How many lines the output takes, and how many the journal does.
    most_lines: usize,
    most_entries: usize,
    is_locked: bool,
}

/// What a life has come to.
#[derive(Drop)]
struct Lived {
    run: Run,
    journal: Vec<u8>,
    is_loud: bool,
}

/// Puts what a life has come to behind a text. Of one that was killed nobody hears.
fn push_lived(text: &mut Vec<u8>, lived: &Lived) -> Result<(), AllocError> {
    if lived.is_loud {
        text.extend_from_slice(b"not quiet\n")?;
    }
    if lived.run.is_cut {
        return text.extend_from_slice(b"killed\n");
    }
    push_run(text, &lived.run)
}

/// The lines of a text up to the first that begins with `%% `, and what stands behind them.
fn section(text: &[u8]) -> (&[u8], &[u8]) {
    let mut rest = text;
    while let Some((line, behind)) = next_line(rest) {
        if line.starts_with(b"%% ") {
            break;
        }
        rest = behind;
    }
    text.split_at(text.len().saturating_sub(rest.len()))
}

/// The number behind a word of a heading, as `lines 3`; if it is not there, no number is too high.
fn most_of(heading: &[u8], word: &[u8]) -> usize {
    let mut rest = heading;
    while let Some((found, behind)) = next_word(rest) {
        rest = behind;
        if found == word {
            let (number, _) = next_word(rest).unwrap_or((b"", b""));
            return read_number(number).unwrap_or(0) as usize;
        }
    }
    usize::MAX
}

/// The next life of a case, and what stands behind it.
fn next_life(input: &[u8]) -> Option<(Life<'_>, &[u8])> {
    let mut rest = input;
    while let Some((line, behind)) = next_line(rest) {
        rest = behind;
        let Some(heading) = line.strip_prefix(b"%% life") else {
            continue;
        };
        let (steps, behind) = section(behind);
        let life = Life {
            steps,
            most_lines: most_of(heading, b"lines"),
            most_entries: most_of(heading, b"entries"),
            is_locked: heading == b" locked".as_slice(),
        };
        return Some((life, behind));
    }
    None
}

/// The words that ask for a drive with these behind it.
fn drive_words<'w>(alloc: Global, words: &[&'w str]) -> Result<Vec<&'w str>, AllocError> {
    let mut all = Vec::new(alloc);
    all.push("drive")?;
    for word in words {
        all.push(*word)?;
    }
    Ok(all)
}

/// What words have come to: the status, the lines of the error output, and what was done with files.
#[derive(Drop)]
struct Played {
    status: u8,
    errors: Vec<u8>,
    done: Vec<u8>,
}

/// Runs words on a machine with the driver of a stage.
fn play<'c, R: Threads + Wait + Eprint + Sync>(
    rt: &'c R,
    alloc: Global,
    parts: &Parts<'_>,
    words: &[&str],
    life: Life<'c>,
    stage: &Stage<'c, R>,
) -> Played {
    let driver = Driver {
        stage,
        most_entries: life.most_entries,
        is_locked: life.is_locked,
    };
    let mut machine = Machine::new(alloc, parts, driver);
    let mut out = WriteSink::new(StageOutput {
        stage,
        most: life.most_lines,
    });
    let mut told = WriteSink::new(Output::new(alloc, Manner::WHOLE));
    let status = run_words(rt, alloc, words, &mut machine, &mut out, &mut told);
    Played {
        status,
        errors: told.into_inner().into_taken(),
        done: machine.into_done(),
    }
}

/// What a life has come to whose words came to this.
fn lived_on<R: Wait>(
    alloc: Global,
    stage: &Stage<'_, R>,
    played: Played,
) -> Result<Lived, AllocError> {
    let left = stage.end(alloc)?;
    let run = Run {
        status: played.status,
        is_cut: left.is_dead,
        output: left.written,
        errors: played.errors,
        done: played.done,
    };
    Ok(Lived {
        run,
        journal: left.journal,
        is_loud: left.is_loud,
    })
}

/// Runs a drive on a machine with a driver, from this journal on.
fn live<'c, R: Threads + Wait + Eprint + Sync>(
    rt: &'c R,
    alloc: Global,
    parts: &Parts<'_>,
    words: &[&str],
    life: Life<'c>,
    journal: Vec<u8>,
) -> Result<Lived, AllocError> {
    let words = drive_words(alloc, words)?;
    let stage = Stage::new(rt, alloc, life.steps, journal);
    let played = play(rt, alloc, parts, words.as_slice(), life, &stage);
    lived_on(alloc, &stage, played)
}

/// Puts what a life comes to that begins with this journal behind a text, and gives the journal that
/// it leaves.
fn push_life<'c, R: Threads + Wait + Eprint + Sync>(
    rt: &'c R,
    parts: &Parts<'_>,
    words: &[&str],
    life: Life<'c>,
    journal: Vec<u8>,
    text: &mut Vec<u8>,
) -> Result<Vec<u8>, AllocError> {
    let lived = live(rt, *text.allocator(), parts, words, life, journal)?;
    push_lived(text, &lived)?;
    Ok(lived.journal)
}

/// What one life after another comes to, and what the journal holds then where that is asked.
pub fn drive_text(
    rt: &(impl Threads + Wait + Eprint + Sync),
    alloc: Global,
    parts: &Parts<'_>,
    words: &[&str],
    input: &[u8],
) -> Result<Vec<u8>, AllocError> {
    let mut text = Vec::new(alloc);
    let mut journal = Vec::from_slice(alloc, parts.text(b"j"))?;
    let mut rest = input;
    // each life has a line of its own
    for _ in 0..input.len() {
        let Some((life, behind)) = next_life(rest) else {
            break;
        };
        journal = push_life(rt, parts, words, life, journal, &mut text)?;
        rest = behind;
    }
    if rest.starts_with(b"%% journal\n") {
        text.extend_from_slice(&journal)?;
    }
    Ok(text)
}

/// The lines of the answer to a drive behind what the driver was asked.
fn end_of(output: &[u8]) -> &[u8] {
    let mut rest = output;
    while let Some((line, behind)) = next_line(rest) {
        if line == b"finished".as_slice() {
            return rest;
        }
        rest = behind;
    }
    rest
}

/// Tells whether a journal has an entry that this instruction of this lane is done, or, where that
/// is not asked, that it was asked for.
fn has_entry(journal: &[u8], lane: &[u8], number: u64, done: bool) -> bool {
    let mut rest = whole_part(journal);
    while let Some((line, behind)) = next_line(rest) {
        rest = behind;
        let Some(entry) = read_entry(line) else {
            continue;
        };
        let is_of = entry.lane == lane && entry.number == number;
        let is_wanted = match entry.said {
            Said::Done => done,
            Said::Branched(_) => false,
            _ => !done,
        };
        if is_of && is_wanted {
            return true;
        }
    }
    false
}

/// Tells whether a line asks for what this journal leaves to be asked for, by the right word.
fn is_rightly_asked(journal: &[u8], line: &[u8]) -> bool {
    let Some((word, rest)) = next_word(line) else {
        return false;
    };
    let (lane, rest) = next_word(rest).unwrap_or((b"", b""));
    let (number, _) = next_word(rest).unwrap_or((b"", b""));
    let number = read_number(number).unwrap_or(u64::MAX);
    let is_again = has_entry(journal, lane, number, false);
    !has_entry(journal, lane, number, true) && (word == b"again".as_slice()) == is_again
}

/// Tells whether each line ahead of the end asks for what this journal leaves.
fn are_rightly_asked(journal: &[u8], output: &[u8]) -> bool {
    let mut rest = output;
    while let Some((line, behind)) = next_line(rest) {
        if line == b"finished".as_slice() {
            return true;
        }
        if !line.starts_with(b"drive 1 ") && !is_rightly_asked(journal, line) {
            return false;
        }
        rest = behind;
    }
    true
}

/// A life in which each thing is done and nothing fails.
const WHOLE: Life<'static> = Life {
    steps: b"",
    most_lines: usize::MAX,
    most_entries: usize::MAX,
    is_locked: false,
};

/// Tells whether a drive whose journal has these bytes ends as the whole one, and asks for what is
/// not done, by `again` where it was asked. Where it does not, what it comes to is put behind a text.
fn ends_so(
    rt: &(impl Threads + Wait + Eprint + Sync),
    parts: &Parts<'_>,
    words: &[&str],
    journal: &[u8],
    whole: &[u8],
    text: &mut Vec<u8>,
) -> Result<bool, AllocError> {
    let alloc = *text.allocator();
    let begun = Vec::from_slice(alloc, journal)?;
    let lived = live(rt, alloc, parts, words, WHOLE, begun)?;
    let output = lived.run.output.as_slice();
    if end_of(output) == end_of(whole) && are_rightly_asked(journal, output) {
        return Ok(true);
    }
    push_run(text, &lived.run)?;
    Ok(false)
}

/// The same of each first part of a journal.
fn push_cuts(
    rt: &(impl Threads + Wait + Eprint + Sync),
    parts: &Parts<'_>,
    words: &[&str],
    whole: &Lived,
    text: &mut Vec<u8>,
) -> Result<(), AllocError> {
    let journal = whole.journal.as_slice();
    for count in 0..journal.len() {
        if !ends_so(rt, parts, words, &journal[..count], &whole.run.output, text)? {
            return Ok(());
        }
    }
    text.extend_from_slice(b"so behind each byte\n")
}

/// What drives come to whose journal is cut behind each of its bytes in turn: whether each ends as
/// the whole one, and asks for what is not done, by `again` where it was asked.
pub fn cuts_text(
    rt: &(impl Threads + Wait + Eprint + Sync),
    alloc: Global,
    parts: &Parts<'_>,
    words: &[&str],
) -> Result<Vec<u8>, AllocError> {
    let whole = live(rt, alloc, parts, words, WHOLE, Vec::new(alloc))?;
    let mut text = Vec::new(alloc);
    push_run(&mut text, &whole.run)?;
    push_cuts(rt, parts, words, &whole, &mut text)?;
    Ok(text)
}
