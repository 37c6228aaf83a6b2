//! Runs of an accepted plan: a whole farm, with a thread for each lane or by turns in one thread.
//!
//! Proved, where `run_farm` or `run_farm_in_turns` returns: the run's chroots, costs and history are
//! those of one run of the definitions that ends all lanes (`IsFarmRun`), or why it stopped
//! (`IsFault`); a gate that reports a run (`Teller`) is a gate as the one within it is, and gives up
//! where that does. Not proved: that a run returns, that lanes run on threads of their own, that the
//! bell wakes anyone (run_cases tests these), and what is reported.
//!
//! # Example
//!
//! ```
//! use farm_executor::{Bell, run_farm};
//! use plan_verifier::Accepted;
//! use std::alloc::Global;
//! use std::sync::Wait;
//! use std::thread::Threads;
//!
//! /// What each lane of a run has spent; none where the run stopped or could not begin.
//! pub fn spent<R: Threads + Wait + Sync>(rt: &R, alloc: Global, accepted: Accepted) -> Option<Vec<u64>> {
//!     let bell = Bell::new(rt, alloc, accepted.plan().lanes()).ok()?;
//!     run_farm(rt, alloc, accepted, &bell).ok().map(|run| run.spent)
//! }
//! ```
#![tactic(auto)]

mod base;
mod bell;
mod causes;
mod jobs;
mod judged;
mod lanes;
mod link;
mod outcomes;
mod providers;
mod run;
mod scope;
mod teller;
mod told;
mod turned;
mod turner;
mod turns;

pub use bell::Bell;
pub use causes::cause;
pub use link::Link;
pub use providers::Providers;
pub use run::{FarmRun, RunFault, run_farm};
pub use teller::Teller;
pub use told::Told;
pub use turned::run_farm_in_turns;
pub use turner::Turner;
pub use turns::lanes_in_turns;
