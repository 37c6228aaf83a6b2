//! Which variants of a universe satisfy which entries, and which exclude each other, as rows.
//!
//! Proved: each row of `Tables` has exactly the variants that satisfy its entry (`IsRowOf`),
//! however many threads made it; whether words have a variant that conflicts, breaks or is broken,
//! and what they miss, is answered exactly. Not proved: that equal entries share a row, how fast,
//! and what memory rows take.
#![tactic(auto)]

mod atom_test;
mod chains;
mod clashes;
mod entries;
mod entry_rows;
mod exclusion;
mod fields;
mod found;
mod index;
mod inside;
mod joined;
mod links;
mod numbers;
mod row;
mod served;
mod sets;
mod tables;
mod turned;
mod wanted;
mod word;

pub use row::entry_row;
pub use tables::Tables;
pub use word::{mask, word_of};
