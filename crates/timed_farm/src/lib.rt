//! The timed run of an accepted plan, or of what is left of it, and its critical path.
//!
//! Proved: `accepted_timed_run` gives the timed run of an accepted plan (`IsTimedRun`) and its
//! critical path (`IsCriticalPath`), and `timed_run_of` that from a state that the plan reaches,
//! memory apart. Not proved: how fast they are.
#![tactic(auto)]

mod accepted;
mod at_work;
mod held;
mod waits;

pub use accepted::{PlanTime, accepted_timed_run, timed_run_of};
pub use timed_run::{Event, TimedRun};
