//! Which alternatives of a relation field stay for one architecture under some build profiles
//! (Debian Policy 7.1, BuildProfileSpec).
//!
//! Proved: `keeps` is the definition of what stays; reduction leaves exactly that of a field, an
//! entry or their text, and what was reduced for an architecture is reduced no further; lists of
//! names and profiles are read exactly, or refused with 131. Only tested: that Dpkg::Deps says the
//! same (policy_cases).
#![tactic(auto)]

pub mod laws;
mod reading;
mod reduction;
mod restriction;
mod word_list;

pub use reduction::{is_bare, reduce, reduce_text, strip_entry};
pub use restriction::keeps;
pub use word_list::{ArchNames, ProfileSet};
