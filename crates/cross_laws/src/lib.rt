//! The laws of an encoding of two architectures in the names of one. What Debian's Multi-Arch rules
//! say of packages, the relations of the encoded packages say.
//!
//! Proved, of a universe that is clear (`IsClearUniverse`): encoded names are decoded; a variant
//! satisfies an encoded need exactly if its package meets the need, and an encoded clash of a build
//! exactly if that hits its package; two variants are in conflict, or else one breaks the other,
//! exactly if their packages do. Satisfaction, conflicts and breaks of variants are those of
//! farm_model, by which every plan is judged. Each rule has rows, which are computed.
//!
//! Not proved: that an import makes such variants, or refuses what is not clear. None encodes yet.
#![tactic(auto)]

pub mod clashes;
pub mod encodings;
pub mod laws;
pub mod needs;
pub mod types;
