//! What the words of a command line come to.
//!
//! Proved, over files, readers and sinks whose bytes are known: some request, run or drive whose
//! names stand among the words is answered by its definition, with its status; a fault outside of
//! the texts is exactly its line (`run_words`). A plan that `draft` writes has
//! `check`'s verdict accepted and follows what is wanted; `timeline` and `graph` have the status and
//! the refusals of `check`, and what they show is made of a timed run and a critical path by their
//! definitions. An import ends with status 0 only if its three files hold texts that are made of the
//! files that its words name, and its lines are written; no file but these changes, and without force
//! none of others. Not proved: which words ask for which command; how refusals and pictures are
//! spelled; and that `run_words` returns where it runs lanes.
#![tactic(auto)]

mod after;
mod answer;
mod by_wish;
mod draft;
mod folder;
mod graph;
mod inputs;
mod making;
mod needs;
mod progress;
mod request;
mod run;
mod tell;
mod text_files;
mod texts;
mod timelines;

pub use after::after_files;
pub use answer::import_files;
pub use draft::{ByNumber, BySketch, draft_files, draft_lanes};
pub use draft_plan::Watch;
pub use drive_answers::DriveSource;
pub use farm_answers::{OUTSIDE, Source, WRONG_WORDS};
pub use folder::Folder;
pub use graph::answer_graph;
pub use needs::{NeedsShape, answer_needs};
pub use request::answer_request;
pub use run::run_words;
pub use timelines::{Shape, answer_timeline};
