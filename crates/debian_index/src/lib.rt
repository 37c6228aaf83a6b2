//! The paragraphs of an index of any length, read in place, and what is looked up in them: the
//! packages that a build makes, and the names that match an architecture.
//!
//! Proved: the blocks of an index say together what the index says by deb_stanza's definition, and
//! each has one paragraph at most, or the first fault is refused (`cut_index`); pieces, of which one
//! is held at a time, do too, with several paragraphs each (`Pieces::next`). Which packages a build makes of its source, by the source's `Package-List`
//! (`names_given`). The names that match an architecture, over dpkg's two tables as data
//! (`names_of`). All memory apart. That the tables are dpkg's is tested.
#![tactic(auto)]

mod blocks;
mod formula;
mod index;
mod list_rows;
mod marks;
mod names;
mod pieces;
mod rows;
mod tables;
mod tuple;

pub use blocks::{Block, read_block};
pub use index::{MOST_INDEX_BYTES, cut_index};
pub use list_rows::{Build, given_names};
pub use names::architecture_names;
pub use pieces::Pieces;
pub use tuple::{Tuple, tuple_of};
