//! Asks what imports of wishes that leave a choice come to, whose files stand in cases, and prints of each
//! case whether its answer is the wanted one.
//!
//! Nothing is proved but that it is safe and ends. The gate runs it over data/, where a README says
//! what a file looks like, and compares what it prints with stdout.
#![tactic(auto)]

mod answers;
mod parts;
mod words;

use crate::answers::StageAnswers;
use case_files::run_files;
use std::io;

fn main(rt: HostRuntime) -> io::Result<()> {
    run_files(&rt, &StageAnswers)
}
