//! The builds that may be chosen for targets: of each source those that a wish allows, and by numbers
//! what they need and give.
//!
//! Proved, memory apart: the kind of a build by the profiles that it has beyond those of every build
//! (`kind_of`), and whether the text of its profiles makes it whole or light (`are_final`); the profiles
//! that build relations and a Package-List name (`named_by`); those of them that a wish allows, and no
//! others (`allows`); the sets of them that are tried, in their order (`tried_sets`), and the text of
//! one. The table of the profiles that leave contents as they are is BuildProfileSpec's.
//!
//! A thing is a package by name and version, and has a number. A build needs the things that are to be
//! given for its needs to be installed, without those that are there at the beginning. For each need
//! one package is fixed ahead of any choice, as an import takes it: the best of what is there, if that
//! can be installed by what is there alone, or else the best of the target's index. Conflicts are not
//! looked at. Not proved: that these are the right builds, needs and outputs; cases hold that.
#![tactic(auto)]

mod beginning;
mod further;
mod growing;
mod kind;
mod known;
mod named;
mod own;
mod profile_sets;
mod scope;
mod source;
mod source_builds;
mod stock;
mod things;
mod way;

pub use beginning::{ForAll, needs_of};
pub use further::{Allowed, further_profiles, is_allowed, own_prefix};
pub use growing::{GrownSource, Ways};
pub use kind::{Kind, are_final, kind_of};
pub use named::named_profiles;
pub use own::{OwnBuild, add_own_builds};
pub use profile_sets::{MOST_PROFILES, profiles_text, tried_sets};
pub use scope::{Asked, Bases, Scope};
pub use source_builds::{block_of, need_fields};
pub use stock::{Below, Stock};
pub use things::Things;
pub use way::{OwnRecipe, Way, rank_of};
