//! Relations of packages of two architectures, encoded in the names of one, for cross builds.
//!
//! Proved, memory apart: a name in each of its senses, and which names are taken; an alternative, an
//! entry and a field of needs, the clashes of a build and of a package among others, and what a
//! package provides become exactly what cross_laws' definitions say; and that two lists of entries
//! which are told to be the same are. Not proved: how entries are spelled, and that lists which are
//! the same are told so. Who writes them reads them again.
#![tactic(auto)]

mod alike;
mod asked;
mod binary;
mod clashes;
mod excluded;
mod hits;
mod names;
mod needs;
mod provides;
mod sides;
mod spelling;

pub use alike::{has_same, is_same_value};
pub use asked::{Asked, Asker, asked_by};
pub use binary::{Binary, Five, is_same};
pub use clashes::encode_build_clashes;
pub use excluded::{encode_breaks, encode_conflicts};
pub use hits::{hits_other, is_replaced};
pub use names::{Sense, encoded_name, host_stem, is_taken, push_shown};
pub use needs::{encode_entry, encode_needs};
pub use provides::{Standing, encode_provides};
pub use sides::{Sides, is_architecture};
pub use spelling::{push_entries, push_field};
