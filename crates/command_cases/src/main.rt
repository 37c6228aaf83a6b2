//! Runs cases of the command line that stand in files, and prints of each whether its answer is the
//! wanted one.
//!
//! The files are named by the program's words. What a file looks like is said in data/README.
//!
//! Nothing is proved but that it is safe. The gate runs it over data/, answered by hand, by the
//! model and by an independent program, and compares what it prints with stdout.
#![tactic(auto)]

mod answers;
mod library;
mod lives;
mod machine;
mod members;
mod outputs;
mod replaced;
mod run;
mod runs;
mod stage;
mod streams;

use crate::run::run_file;
use std::{env, io};

fn main(rt: HostRuntime) -> io::Result<()> {
    for word in env::args(&rt)?.skip(1) {
        run_file(&rt, word.as_str())?;
    }
    Ok(())
}
