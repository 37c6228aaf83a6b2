//! Which of some builds to make so that an end can be made: a choice over plain numbers. Things are
//! numbers, and so are builds: their places in a list.
//!
//! Proved: each answer is an order in which every build needs only what builds ahead of it give, and
//! after which the end can be made; where there is none, no order leads to the end; what can be made
//! is all that any order makes. Not proved: that few dear builds are chosen, or small weights. The
//! best choice is hard to find, and this one is good.
#![tactic(auto)]

mod build;
mod cheapest;
mod choice;
mod cone;
mod giving;
mod hitting;
mod landmarks;
mod made;
mod making;
mod marks;
mod needless;
mod numbers;
mod places;
mod reach;
mod small;
mod task;

pub use build::StagedBuild;
pub use choice::{Choice, choose};
pub use made::Made;
pub use reach::{leads_to, made_of};
