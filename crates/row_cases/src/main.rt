//! Asks kernels, rows and the rows of farms the questions of data files, and tells which answers are
//! the wanted ones. The files are named by the program's words.
//!
//! Nothing is proved but that it is safe and ends. The gate runs it over data/, answered by hand and
//! by scripts/make_random_rows, or where each row of a farm is compared with the plain question asked
//! of each variant, and compares what it prints with stdout.
#![tactic(auto)]

mod answer;
mod asked;
mod farm;
mod farm_answer;
mod one_name;
mod plain;
mod question;
mod questions;
mod spelling;
mod stages;
mod time;
mod two_rows;
mod values;

use crate::farm::tell_file;
use crate::questions::RowAnswers;
use std::{env, io};

fn main(rt: HostRuntime) -> io::Result<()> {
    for word in env::args(&rt)?.skip(1) {
        tell_file(&rt, &RowAnswers, word.as_str())?;
    }
    Ok(())
}
