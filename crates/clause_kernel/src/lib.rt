//! Tests and changes of two rows of words. One word is one package name, and its bits are that
//! name's variants. Eight words are taken at a time by `std::simd`, the rest one by one.
//!
//! Proved: each test or change of two rows of one length is its plain function (`test`, `row`), and
//! means by bits what its name says (`bits`, `equal`). Not proved: how fast they are (bench/).
#![tactic(auto)]

mod change;
mod compare;

pub use change::{and_into, or_into, take_out};
pub use compare::{hits, met, same, within};

// How many words are taken at a time.
const BLOCK: usize = 8;
