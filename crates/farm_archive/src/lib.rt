//! The archive of a farm in memory: what it has, what was published, and what one word of it gives.
//!
//! Proved: an archive opens with what is there at the beginning and room for each event of the plan;
//! `publish` sets one bit and adds one publication with the next serial; `newest`, which an unpack
//! takes, is the highest wanted variant in a word, and `some_satisfies`, by which a wait passes,
//! says exactly whether one in it satisfies the entry.
#![tactic(auto)]

mod archive;
mod pick;
mod publication;
mod wait;
mod word;

pub use archive::PlainArchive;
pub use pick::newest;
pub use publication::Publication;
pub use wait::some_satisfies;
