//! The plain numbers of a farm, made of its universe.
//!
//! Proved: that it is safe and ends. What is drafted of these numbers is judged elsewhere, by
//! draft_plan and plan_verifier.
#![tactic(auto)]

mod builds;
mod entries;
mod exclusions;
mod found;
mod looks;
mod numbers;
mod pairs;
mod satisfying;

pub use numbers::numbers_of;
