//! The story of a chain of runs.
//!
//! Proved: a story is right only where each leg goes on from the one before it, which no other run
//! has ended (`history_of`); and what a leg has published is told by its name, its version and a recipe
//! that gives it (`told_of`). A leg that is joined to another goes on where that has stopped
//! (`join_texts`).
//!
//! Not proved: how lines are worded, why a leg does not go on, and what came by hand.
#![tactic(auto)]

mod facts;
mod history;
mod join;
mod seam;
mod story;
mod told;
mod why;

pub use facts::LegFacts;
pub use history::{History, history_of};
pub use join::{JoinFault, Joined, join_texts};
pub use told::{Told, told_of};
pub use why::{Why, push_why, why_not};
