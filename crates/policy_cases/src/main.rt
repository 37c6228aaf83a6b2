//! Asks the libraries of the Debian layers the questions of tables, and tells which answers are
//! the wanted ones. The tables are files whose names are the program's arguments.
//!
//! Nothing is proved but that it is safe and ends. The gate runs it over data/, whose answers come
//! from Policy, dpkg and Dpkg::Deps, and compares what it prints with stdout.
#![tactic(auto)]

mod answer;
mod architectures;
mod classes;
mod fields;
mod profiles;
mod questions;
mod spelling;
mod stanzas;
mod texts;
mod versions;

use crate::questions::PolicyAnswers;
use case_files::run_tables;
use std::io;

fn main(rt: HostRuntime) -> io::Result<()> {
    run_tables(&rt, &PolicyAnswers)
}
