//! What nothing in a farm meets, of what recipes and packages need.
//!
//! Proved: `unmet_needs` gives exactly the entries that no variant of the universe satisfies, of a
//! list of its own, of each recipe, of each package that is there at the beginning, and of further
//! packages, each with who asks for it (`unmet_needs` of specs/Unmet.antt). Not proved: how fast.
#![tactic(auto)]

mod candidates;
mod met;
mod needs;

pub use candidates::Candidates;
pub use needs::{Asker, Unmet, unmet_needs};
