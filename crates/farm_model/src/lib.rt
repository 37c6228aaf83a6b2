//! The model of a farm: its packages, recipes and base chroots, what a chroot holds, and the traps
//! and effects of instructions on one chroot.
//!
//! These are definitions, with the few types that they share with code. Proved here: a trap's text.
//! That they say what the rules say is shown by the worked rows of worked_farms and the cases of
//! policy_cases; what follows from them is proved in farm_laws.
#![tactic(auto)]

pub mod types;

pub use types::{Mode, Slot, Trap, Variant};
