//! The core of a farm: a whole plan, one event at a time, on any schedule.
//!
//! Proved: `Core::open`, `step` and `run_schedule` come to exactly what the definitions of a run
//! say, trap or not, memory apart (`result_of`), and so does `step_untested` where no trap is met.
//! Nothing is said of whether a plan is safe: it knows no verifier.
#![tactic(auto)]

mod answer;
mod charge;
mod event;
mod farm;
mod instructions;
mod lane;
mod pick;
mod publish;
mod schedule;
mod take;
mod traps;
mod turn;
mod wait;

pub use answer::Step;
pub use farm::Core;
pub use farm_archive::Publication;
pub use schedule::{Outcome, Stop, run_schedule};
