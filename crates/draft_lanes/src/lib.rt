//! Which builds can be made, in which order and by which lane, and the lines of a lane by which its
//! chroot comes to hold what is wanted.
//!
//! Proved: that it is safe and ends. What it chooses and writes is judged elsewhere, by draft_plan
//! and plan_verifier; its answer that a recipe cannot be built is not.
#![tactic(auto)]

mod chroot;
mod clear;
mod configure;
mod install;
mod lane;
mod levels;
mod marks;
mod order;
mod placing;
mod published;
mod reach;
mod refusal;
mod tests_of;
mod watch;
mod wish;

pub use lane::{Lane, Saved, Step};
pub use marks::Marks;
pub use order::{Ground, Order};
pub use placing::{Placed, place};
pub use published::Published;
pub use reach::Stop;
pub use refusal::Refusal;
pub use watch::Watch;
pub use wish::{LaneWish, Wish, before_of};
