//! Sources for cross builds, encoded in the names of one architecture: an index goes in, and the
//! sources that are wanted come out, each for the sides for which it is built.
//!
//! How paragraphs are put together need not be believed: each is read again by itself, and held
//! against the given one. Proved, memory apart: `encode_sources` gives a text only where each
//! paragraph is so read as the source, encoded (`AreEncodedSources`): its name, its version and its
//! files, its Package-List, and what it needs and excludes; how a source is read, or its first fault
//! (`given_source_at`). Not proved: that a text is encoded rather than refused as `Unlike`, and what
//! is said of a refused item. Cases hold these.
#![tactic(auto)]

mod asked;
mod given;
mod index;
mod judge;
mod list;
mod piece;
mod relations;
mod rows;
mod stop;

pub use asked::{Asked, WantedSource};
pub use given::{BuildRelations, GivenSource};
pub use index::{EncodedSources, KeptSource, encode_sources};
pub use stop::{about_taken, first_taken};
