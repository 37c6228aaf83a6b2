//! The texts of a farm, made of a wish and of whole indexes.
//!
//! Proved by the contract of `import`: texts that are given out are read without a fault, as every
//! command reads them. They have a recipe and a base chroot for each of the wish, by name and in its
//! order. Each paragraph of a source is one paragraph of the Sources indexes, byte for byte. Each
//! paragraph of a package is one of the Packages indexes, or has another version: in `Version`, which
//! stays one line, and in its relations between a `(` and the next `)` (`push_rewritten`). Beside the
//! texts stands all that nothing in them meets, of what the wish wants to be there, of what the
//! recipes and the initial archive need, and of what some outputs of recipes need; and the lines that
//! are printed have a note on each of these entries, whoever words them (`Tell`).
//!
//! Not proved: that no more is taken than is wanted, which outputs' needs are wanted, which versions
//! builds give, what a recipe says beside its name, and why there is no farm; cases hold that.
#![tactic(auto)]

mod architectures;
mod counts;
mod farm_names;
mod farm_text;
mod imported;
mod indexes;
mod judge;
mod lines;
mod packages_text;
mod refusals;
mod renamed;
mod rewriting;
mod taken;
mod tell;
mod versions;
mod watch;
mod written;

pub use architectures::all_names;
pub use counts::{COUNTS, Count};
pub use imported::{
    HEAD, Imported, ImportedTexts, Inputs, Judged, NamedText, architectures_of, import,
    import_shelved, wish_of, wish_paragraphs,
};
pub use indexes::{Packages, Sources, read_packages, read_sources};
pub use lines::{push_number, push_package};
pub use refusals::{Refusal, RefusedRecipe, Stop};
pub use renamed::{Sister, Sisters};
pub use rewriting::{push_block, push_rewritten};
pub use taken::{Builds, Choice, Given, Read, Taken, output_names, read_builds};
pub use tell::{Farm, Tell, Told};
pub use versions::version_text;
pub use watch::Watch;
