//! The model of a plan over a farm: instructions, lanes, runs, known rows, may maps and orders.
//!
//! These are definitions, with the few types that they share with code: the promise is `IsSafe`
//! (specs/Promise.antt), and nobody has to believe known rows, may maps or orders. Proved here:
//! what an instruction publishes, and whether it teaches. The laws are in farm_laws and
//! verdict_laws.
#![tactic(auto)]

pub mod instructions;

pub use instructions::{Instruction, Members};
