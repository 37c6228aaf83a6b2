//! What the commands that ask for a verdict, a listing, a certificate, a schedule or a run answer to
//! four texts; where these are read from, and how a fault outside of them is reported.
//!
//! Proved, over files, readers and sinks whose bytes are known: each answer is exactly the text of
//! its definition, with its status, or a first part where the sink fails (`IsAnswered`); a fault
//! outside of the texts is exactly its line (`tell`), as JSON too where that is asked for
//! (`say_none`), and the word that is no lane the first one of its file; `read_up_to` gives the
//! first bytes of a reader, up to a bound. Not proved: that `answer_run` returns, how such a word is
//! reported, and that a read fails only where the reader or memory does.
#![tactic(auto)]

mod answers;
mod bounded;
mod certificates;
mod errors;
mod farm_run;
mod fault;
mod files;
mod none;
mod numbered;
mod refusal_json;
mod source;
mod status;
mod turn_note;
mod turns;
mod verdict_json;
mod why;

pub use answers::{
    answer_check, answer_list, answer_numbered, answer_step, answer_step_by, answer_verdict,
    show_verdict, status_of, write_answer,
};
pub use bounded::read_up_to;
pub use certificates::{answer_cert, answer_verify_cert, check_text};
pub use errors::{say, tell};
pub use farm_run::{RunFiles, answer_end, answer_run, run_files};
pub use fault::{OutsideFault, Unread};
pub use files::{FileTexts, read_files};
pub use none::say_none;
pub use source::{MOST_FILE, Source, read_file, read_input};
pub use status::{FINE, OUTSIDE, REFUSED, WRONG_WORDS};
pub use verdict_json::{check_json, of_verdict};
pub use why::Unreadable;
