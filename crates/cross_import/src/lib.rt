//! The texts of a farm of two architectures, for a cross bootstrap: a wish and indexes go in, and
//! texts come out whose names are those of one architecture, as `libc6.riscv64`.
//!
//! Proved by the contract of `import_cross` (`AreCrossImported`): the packages text is the finished
//! one of a native import of encoded inputs (`IsFinished`; `AreImported` of import_farm says what that
//! has), and its sources and farm texts are those of that import. Each index of these inputs is the
//! encoded one of what is given (`IsEncodedIndex`, `AreEncodedSources`), for the two architectures and
//! the sources that the wish names (`cross_wish_at`). The three texts are read without a fault, as every
//! command reads them, and have the recipes of the wish, by name and in its order. `is_cross` is exactly
//! `cross_in`.
//!
//! Among the packages that are taken none would be taken, by those names, for what another one asks for
//! or excludes, and not by dpkg (`AreClear`): the side condition of cross_laws' laws.
//!
//! Not proved: that the encoded wish says more of what the wish does than its recipes' names; that what
//! the wish and sources ask for is clear; why there is no farm; how lines are worded. Cases hold that.
#![tactic(auto)]

mod counts;
mod encoded;
mod farm_recipes;
mod finish;
mod import;
mod met;
mod stop;
mod told;

pub use import::{import_cross, is_cross};
