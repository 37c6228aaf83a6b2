//! The texts of answers, written to a sink.
//!
//! Proved: each call writes exactly its text (`verdict_text`, `step_text`, `cert_text`,
//! `run_text`), or a first part of it where the sink has failed, and says whether it has.
#![tactic(auto)]

mod cert;
mod finished;
mod lines;
mod state;
mod state_lines;
mod step;
mod verdict;

pub use cert::write_cert_verdict;
pub use finished::write_run;
pub use report_sink::{Sink, SinkFailed, WRITE_FAILED, WriteFailed, WriteSink, write_text};
pub use step::write_step;
pub use verdict::{refusal_text, write_check};
