//! Versions of Debian packages: their grammar and their order.
//!
//! Proved: a text is read exactly where the grammar has it, or refused with its first fault (111 to
//! 114); `compare`, `==` and `Ord` are the order of Policy 5.6.12, which is total and has no ties
//! but between equal epochs, words and numbers. Only tested: that dpkg orders the same
//! (policy_cases).
#![tactic(auto)]

mod borrowed;
mod error;
mod grammar;
mod laws;
mod order;
mod version;

pub use borrowed::VersionRef;
pub use error::{BAD_CHARACTER, EMPTY_PART, EPOCH_TOO_LARGE, TOO_LONG, VersionError};
pub use grammar::{MAX_EPOCH, MAX_LENGTH};
pub use laws::{examples_are_in_order, order_is_total, parts_are_runs, ties_mean_same};
pub use version::Version;
