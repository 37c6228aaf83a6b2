//! Cases that stand in files, and whether each has the answer that is wanted.
//!
//! Nothing is proved but that it is safe and ends.
#![tactic(auto)]

mod cases;
mod escapes;
mod lines;
mod run;
mod tables;

pub use cases::{Case, Cases};
pub use lines::LineFault;
pub use run::{Answers, print_judged, run_file, run_files};
pub use tables::{TableAnswers, TableRow, columns_of, row_of, run_tables, tell_table};
