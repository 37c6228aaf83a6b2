//! What is judged and told of the packages of a farm of two architectures, once all are known: the
//! refusal 707, and notes on versions that differ.
//!
//! Proved: of a farm that is not refused, that no package would be taken, by the names of one
//! architecture, for what another one asks for or excludes, and not by dpkg; nor for one that a clash
//! hits, and is not hit (`refused`: `ArePackagesKept`). With names that are not taken, which the encoding
//! refuses, that is what the laws of cross_laws ask of a universe (`IsClear`). Not proved: the same of
//! what the wish and sources ask for, which of these the farm has, where a package stands in the
//! indexes, and the words. Cases hold that.
#![tactic(auto)]

mod across;
mod chosen;
mod clear;
mod places;
mod skews;

pub use chosen::{Chosen, NamedSources, Names, chosen_sources};
pub use clear::{Members, refused};
pub use skews::push_skews;
