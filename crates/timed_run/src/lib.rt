//! The timed run of a safe plan, from its beginning or from any state that it reaches: when each
//! event begins and ends.
//!
//! These are definitions: what a timed run is (`IsTimedRun`) and what its critical path is
//! (`IsCriticalPath`). Proved: `timed_run_from` gives the timed run from a state, `timed_run` that
//! from the beginning, of which a plan has one (`IsOnlyTimedRun`), and `critical_path` a chain to its
//! end, memory apart. Not proved: how fast they are.
#![tactic(auto)]

mod advance;
mod clock;
mod earliest;
mod event;
mod farm;
mod path;
mod run;
mod wake;

pub use clock::Clock;
pub use event::Event;
pub use farm::Farm;
pub use path::critical_path;
pub use run::{TimedRun, timed_run, timed_run_from};
