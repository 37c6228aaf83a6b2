//! Runs the cases of files.

ghost use denote.Param.Send.{IsSync};

use crate::cases::{Case, Cases};
use crate::lines::LineFault;
use deb_text::next_line;
use std::alloc::{AllocError, Global};
use std::env::{self, Env};
use std::rt::Files;
use std::{fs, io};

/// What answers the questions of cases with a handle, which threads may share.
pub trait Answers<R> {
    /// Answers the question of a case; where it is not known, by a line that says so.
    fn answer_to(&self, rt: &R, alloc: Global, case: &Case) -> Result<Vec<u8>, AllocError>
        requires { IsSync R.row };
}

/// Prints whether what was found is the wanted answer.
///
/// # Errors
///
/// Where the output cannot be written.
pub fn print_judged(rt: &impl Print, want: &[u8], found: &[u8]) -> io::Result<()> {
    if found == want {
        return println!(rt; "ok");
    }
    let (want, found) = (want.escape_ascii(), found.escape_ascii());
    println!(rt; "wanted {want}, got {found}")
}

/// Prints whether the answer to a case is the wanted one.
fn judge<R: Print + AllocGlobal + Sync, A: Answers<R>>(
    rt: &R,
    answers: &A,
    file: &str,
    case: &Case,
) -> io::Result<()> {
    let found = answers.answer_to(rt, rt.alloc(), case)?;
    print!(rt; "{file} {}: ", case.name.escape_ascii())?;
    print_judged(rt, &case.want, &found)
}

/// Judges the case that ends before a line, if one does, or prints the line's fault.
fn judge_taken<R: Print + AllocGlobal + Sync, A: Answers<R>>(
    rt: &R,
    answers: &A,
    file: &str,
    taken: Result<Option<Case>, LineFault>,
) -> io::Result<()> {
    match taken {
        Ok(Some(case)) => judge(rt, answers, file, &case),
        Ok(None) => Ok(()),
        Err(fault) => println!(rt; "{file}: {fault}"),
    }
}

/// Prints of each case of a text whether its answer is the wanted one.
fn judge_all<R: Print + AllocGlobal + Sync, A: Answers<R>>(
    rt: &R,
    answers: &A,
    file: &str,
    text: &[u8],
) -> io::Result<()> {
    let mut cases = Cases::new(rt.alloc());
    let mut rest = text;
    while let Some((line, behind)) = next_line(rest) {
        judge_taken(rt, answers, file, cases.take(line))?;
        rest = behind;
    }
    judge_taken(rt, answers, file, cases.take_last())
}

/// Prints of each case of a file whether its answer is the wanted one.
///
/// # Errors
///
/// Where the file cannot be read, the output not be written, or memory is refused.
pub fn run_file<R: Files + Print + AllocGlobal + Sync, A: Answers<R>>(
    rt: &R,
    answers: &A,
    file: &str,
) -> io::Result<()> {
    judge_all(rt, answers, file, &fs::read(rt, file)?)
}

/// Prints of each case of the files that the program's words name whether its answer is the wanted
/// one.
///
/// # Errors
///
/// Where a word is no text, a file cannot be read, the output not be written, or memory is refused.
pub fn run_files<R: Env + Files + Print + AllocGlobal + Sync, A: Answers<R>>(
    rt: &R,
    answers: &A,
) -> io::Result<()> {
    for word in env::args(rt)?.skip(1) {
        run_file(rt, answers, word.as_str())?;
    }
    Ok(())
}
