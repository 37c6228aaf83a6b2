//! What a chroot is to hold for a build: a search, over a farm in plain numbers, that learns from
//! its conflicts. It stands on no other crate.
//!
//! Proved: that it is safe and ends; a number that is out of bounds gives nothing. What it finds is
//! judged elsewhere, by draft_plan and plan_verifier; its answer that there is none is not.
#![tactic(auto)]

mod ask;
mod choice;
mod clauses;
mod farm;
mod helpers;
mod learn;
mod lists;
mod propagate;
mod search;
mod trail;

pub use ask::Ask;
pub use clauses::{Clauses, Literal};
pub use farm::{Builds, Entries, Exclusions, Facts, FarmNumbers, RecipeFacts};
pub use lists::{Lists, at, put};
pub use search::{Found, Search, fuel};
