//! What `drive` answers: a run of the plan that a driver carries out; and `status`: where it stands.
//!
//! Proved, where it returns, over files, sinks and a journal whose bytes are known: a plan that is
//! refused is answered as `check` does; the answer with status 0 is the text of a run in which all
//! lanes came to their ends, behind what the driver was asked for; and each other end is exactly
//! its line on the error output, of a journal that does not fit the first such line of it
//! (`DrivesTo`). `status` reads the journal as `drive` follows it (`AnswersStatus`), and when what is
//! left ends is a timed run from there (`timed_run_of`); how its lines are worded is tested. Not
//! proved: what the driver was asked for, and that it returns.
#![tactic(auto)]

mod begun;
mod driven_answer;
mod faults;
mod kept;
mod machine;
mod ran;
mod setting;
mod standing_facts;
mod standing_json;
mod standing_lines;
mod standing_times;
mod status;

pub use driven_answer::{DriveFiles, drive_files};
pub use faults::tell_misfit;
pub use machine::DriveSource;
pub use status::{StatusTexts, answer_status};
