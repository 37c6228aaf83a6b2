//! Relation fields of Debian control data, by Debian Policy chapter 7: their parts, how they are
//! read, and which package satisfies one of them.
//!
//! Proved: fields, entries and alternatives are read exactly as the grammar has them, or refused
//! with the first fault (121 to 130), memory apart; `satisfies` and `in_relation` are their
//! definitions; what was read of a Depends field is read again from its spelling. Only tested: that
//! dpkg says the same (policy_cases). Not proved: that `is_same_entry` finds all entries that are
//! equal.
#![tactic(auto)]

mod alternative;
mod atom;
mod error;
mod field;
mod grammar;
mod holding;
mod host;
mod kind;
pub mod laws;
mod lists;
mod operator;
mod relation;
mod relations;
mod restriction;
mod same;
mod satisfaction;
mod store;
mod words;

pub use atom::Atom;
pub use error::{
    ALTERNATIVES, BAD_ARCHITECTURES, BAD_NAME, BAD_OPERATOR, BAD_PROFILES, BAD_VERSION, BAD_WORD,
    NO_ALTERNATIVE, NOT_CLOSED, NOT_EQUAL, RESTRICTION, RelationError,
};
pub use field::{judge_entries, next_entry};
pub use host::Host;
pub use kind::Kind;
pub use operator::Op;
pub use relation::{copy_relation, view_relation};
pub use relations::{Entry, Relations};
pub use restriction::{ArchList, Item, ProfileList, Word};
pub use same::{hash_of_entry, is_same_entry};
pub use satisfaction::{Facts, in_relation, provides_it, satisfies};
