//! What is legal but odd in the texts of a farm and its plan, as the lines of warnings, which refuse
//! no plan.
//!
//! Proved: that each call is safe, and returns. Which warnings are given, in which order and in which
//! words, is only tested.
#![tactic(auto)]

mod all_warnings;
mod farm_fields;
mod indexes;
mod recipes;
mod restricting;
mod tally;
mod waits;
mod warning;

pub use all_warnings::warnings;
