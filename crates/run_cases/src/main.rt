//! Runs cases of the promised library that stand in files, runs on threads above all, and prints of
//! each whether its answer is the wanted one.
//!
//! The files are named by the program's words. What a file looks like is said in data/README.
//!
//! Nothing is proved but that it is safe. Its cases ask what no contract says: that lanes get on,
//! side by side, and that a call succeeds where there is memory. The gate runs it over data/,
//! answered by hand, and compares what it prints with stdout.
#![tactic(auto)]

mod answers;
mod archive;
mod gates;
mod in_turns;
mod library;
mod lines;
mod manners;
mod ran;
mod watched;

use crate::answers::RunAnswers;
use case_files::run_files;
use std::io;

fn main(rt: HostRuntime) -> io::Result<()> {
    run_files(&rt, &RunAnswers)
}
