//! The verdict on a plan: it is accepted with a promise, or refused with its first cause.
//!
//! Proved: what `check` accepts is safe in every interleaving (`safe`: `IsSafe`), and its answer is
//! the one that the rules give: the first fault of the texts, the first unsafe instruction, the
//! stuck lanes, or an acceptance, memory apart (`verdict`). `Accepted` holds the promise in its
//! type; a refused plan has no annotation with an order (`refusals_are_right`). Not proved: that a
//! refused plan would fail in some run, and how fast a check is.
//!
//! # Example
//!
//! ```
//! use plan_verifier::check;
//! use std::alloc::Global;
//! use std::thread::Threads;
//!
//! pub fn is_accepted(rt: &(impl Threads + Sync), alloc: Global, texts: [&[u8]; 4]) -> bool {
//!     let [packages, sources, farm, plan] = texts;
//!     check(rt, alloc, packages, sources, farm, plan).is_ok()
//! }
//! ```
#![tactic(auto)]

mod accepted;
mod branch;
mod costs;
mod examined;
mod laws;
mod message;
mod possible;
mod ready;
mod refusal;
mod side_by_side;
mod stage;
mod stuck;
mod verdict;
pub mod walk;

pub use accepted::Accepted;
pub use branch::{Branch, LaneMay};
pub use costs::{check_lanes, walk_lanes};
pub use examined::{Examined, Grounds};
pub use laws::{refusals_are_right, verdicts_are_one};
pub use possible::{add_outputs, possible_row};
pub use ready::{Ready, read_ready};
pub use refusal::{Refusal, STUCK, UNEVEN, UNSAFE};
pub use stage::Stage;
pub use verdict::check;
pub use walk::{WalkError, words_at};
