//! Asks cross_index to encode the indexes of case files, and tells which texts are the wanted ones. The
//! files are named by the program's words.
//!
//! Nothing is proved but that it is safe and ends. The gate runs it over data/, answered by the model
//! and by hand, and compares what it prints with stdout.
#![tactic(auto)]

mod answers;

use crate::answers::CrossAnswers;
use case_files::run_files;
use std::io;

fn main(rt: HostRuntime) -> io::Result<()> {
    run_files(&rt, &CrossAnswers)
}
