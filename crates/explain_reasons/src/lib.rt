//! Why an instruction may meet a trap: the witnesses of the trap's test, in the order of the rules,
//! and what helps with the first; and what a `remove` may leave unpacked.
//!
//! Proved: `reasons` gives exactly the witnesses of the trap's test (`told`), and there is one
//! where that trap is the first that the instruction may meet (`there`). `look_along` gives exactly
//! a lane's first hazard, and the warnings of its `remove` up to there, as data, memory apart;
//! `find_builder` the first build, `wanted_word` the variants of an unpack, `next_largest` the next
//! largest package, each exactly. `lane_cost` gives a cost just where it is known and a `u64` holds
//! it, and that is what the lane's map has spent at its end; `is_safe_with` says yes just where each
//! instruction is safe with the pinned unpack.
#![tactic(auto)]

mod along;
mod builds;
mod cost;
mod held;
mod instructions;
mod largest;
mod listed;
mod pins;
mod place;
mod plan;
mod types;

pub use along::{LaneHazard, Left, look_along};
pub use builds::{Builder, Side, find_builder};
pub use cost::lane_cost;
pub use held::{push_if, push_variants};
pub use largest::{Holder, next_largest};
pub use pins::{Pin, is_safe_with, wanted_word};
pub use plan::{reasons, unmet_entries};
pub use types::{Field, Reason};
