//! Sets of variants as rows of words: one word for each name, its bits that name's variants.
//!
//! Proved: each call, by the words of a row and by the set of variants that it stands for; a
//! refused growth leaves the row as it was, and a row of one block asks for no memory. Not proved:
//! how far `Row::skip` goes, and how fast a call is.
#![tactic(auto)]

mod block;
mod change;
mod laws;
mod meet;
mod row;
mod word;

pub use laws::rows_are_sets;
use std::alloc::Global;
pub use word::newest;

/// A row with room for one block in itself, since most rows have no more.
pub type Row<A = Global> = row::Row<1, A>;
