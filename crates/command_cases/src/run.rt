//! Runs the cases of files. The library's own run hands on no error output.

use crate::answers::answer_to;
use case_files::{Case, Cases, LineFault, print_judged};
use deb_text::next_line;
use std::io::Eprint;
use std::rt::Files;
use std::sync::Wait;
use std::thread::Threads;
use std::{fs, io};

/// Prints whether the answer to a case is the wanted one.
fn judge(
    rt: &(impl Print + AllocGlobal + Threads + Wait + Eprint + Sync),
    file: &str,
    case: &Case,
) -> io::Result<()> {
    let found = answer_to(rt, rt.alloc(), case)?;
    print!(rt; "{file} {}: ", case.name.escape_ascii())?;
    print_judged(rt, &case.want, &found)
}

/// Judges the case that ends before a line, if one does, or prints the line's fault.
fn judge_taken(
    rt: &(impl Print + AllocGlobal + Threads + Wait + Eprint + Sync),
    file: &str,
    taken: Result<Option<Case>, LineFault>,
) -> io::Result<()> {
    match taken {
        Ok(Some(case)) => judge(rt, file, &case),
        Ok(None) => Ok(()),
        Err(fault) => println!(rt; "{file}: {fault}"),
    }
}

/// Prints of each case of a text whether its answer is the wanted one.
fn judge_all(
    rt: &(impl Print + AllocGlobal + Threads + Wait + Eprint + Sync),
    file: &str,
    text: &[u8],
) -> io::Result<()> {
    let mut cases = Cases::new(rt.alloc());
    let mut rest = text;
    while let Some((line, behind)) = next_line(rest) {
        judge_taken(rt, file, cases.take(line))?;
        rest = behind;
    }
    judge_taken(rt, file, cases.take_last())
}

/// Prints of each case of a file whether its answer is the wanted one.
///
/// # Errors
///
/// Where a file cannot be read, memory is refused or a line cannot be printed.
pub fn run_file(
    rt: &(impl Files + Print + AllocGlobal + Threads + Wait + Eprint + Sync),
    file: &str,
) -> io::Result<()> {
    judge_all(rt, file, &fs::read(rt, file)?)
}
