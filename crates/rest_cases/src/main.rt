//! Asks what is left of runs the questions of tables, and tells which answers are the wanted ones. The
//! tables are named by the program's words.
//!
//! Nothing is proved but that it is safe and ends. The gate runs it over data/, answered by hand, and
//! compares what it prints with stdout.
#![tactic(auto)]

mod continuations;
mod questions;
mod spelling;

use crate::questions::RestAnswers;
use case_files::tell_table;
use std::{env, fs, io};

fn main(rt: HostRuntime) -> io::Result<()> {
    for word in env::args(&rt)?.skip(1) {
        let file = word.as_str();
        tell_table(&rt, &RestAnswers, file, &fs::read(&rt, file)?)?;
    }
    Ok(())
}
