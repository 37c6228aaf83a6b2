//! What an import takes of whole indexes: for each entry that is wanted the best package, closed
//! over what that needs; the source of each build, what it gives and what it needs.
//!
//! Proved, memory apart: what is kept of a paragraph, or its first fault (`given_at`); name and
//! version of a source (`source_at`), what a build in a mode needs (`needs_at`), the bytes of its
//! files (`total_from`); of packages the best that meets an entry (`best_for`); the version after a
//! number of further builds, as binNMUs are called (`further_version`). Not proved: that what is
//! taken is the least closed set, that each package is found under its names (what is found is
//! tested by who looks), and that source and outputs of a build are the right ones; cases hold
//! these.
#![tactic(auto)]

mod best;
mod build;
mod build_packages;
mod build_sources;
mod chroot;
mod closure;
mod error;
mod fields;
mod files;
mod given;
mod looks;
mod needs;
mod order;
mod outputs;
mod package_names;
mod relations;
mod shelf;
mod source;
mod source_names;
mod source_paragraph;
mod table;
mod variants;
mod version;

pub use best::{best_for, is_fitting};
pub use build::{Build, Indexes, StandIn, WantedBuild, read_build};
pub use build_sources::{SourceHere, SourceShelf};
pub use chroot::{ChrootStop, chroot_members};
pub use closure::{Closure, Pools};
pub use error::{BuildStop, Lack};
pub use fields::{MOST_SIZE, read_version};
pub use files::files_size;
pub use given::{Given, read_given};
pub use looks::{Look, Unreadable};
pub use needs::{Host, Needs, judge_relations, read_needs};
pub use order::comes_before;
pub use package_names::PackageNames;
pub use relations::{GivenRelations, MOST_ENTRIES};
pub use shelf::Shelf;
pub use source::GivenSource;
pub use source_names::add_source_block;
pub use source_paragraph::{Source, read_source};
pub use table::NameTable;
pub use variants::{Variant, Variants};
pub use version::{Counted, cut_count, further_version};
