//! The universe of a port's farm: its packages, recipes, base chroots and initial archive.
//!
//! Proved: `Universe::read` and `read_side_by_side` give exactly the universe of three texts, or
//! their first fault with its file and line, memory apart (`universe_of`), and what stands before
//! that (`before_of`); each reader of a universe is its definition, and each universe keeps what the
//! laws ask (`IsKept`). Not proved: how many threads read, how fast, and what memory a text takes.
#![tactic(auto)]

mod among;
mod base;
mod bases;
mod binary;
mod build;
mod error;
pub mod essential;
mod farm;
mod field_text;
mod fields;
mod keyed;
mod land;
mod later_parts;
pub mod limits;
mod list;
mod member;
mod package_table;
mod packages;
mod paragraph;
mod recipe;
mod recipe_parts;
mod recipes;
mod reduction;
mod refused;
pub mod relations;
mod settled;
mod side_by_side;
mod source_table;
mod sources;
mod steps;
mod texts;
mod universe;

pub use base::Base;
pub use binary::PackageRelations;
pub use error::{
    ABSENT, BAD_VALUE, NO_OUTPUT, OVER_LIMIT, TAKEN, TOO_MANY_VARIANTS, TWICE, UNKNOWN_SOURCE,
    UNKNOWN_VARIANT, UNSETTLED_BASE,
};
pub use farm_model::{Slot, Trap, Variant};
pub use list::pinned;
pub use recipe::Recipe;
pub use refused::Refused;
pub use universe::Universe;
