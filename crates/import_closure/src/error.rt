//! Why a build cannot be made of the indexes.

use deb_relation::RelationError;
use std::alloc::AllocError;

/// Why the indexes have nothing that a build gives: they lack it; its source has packages for the
/// architecture and the profiles, and those that its mode leaves out are all of them; or it has none.
#[derive(Clone, Copy)]
pub enum Lack {
    Unindexed,
    OnlyAll,
    NoAll,
    NotHere,
}

/// Why a build cannot be made of the indexes: no source fits; this one of the outputs that are
/// wanted is none; the indexes have nothing that it gives; or memory is refused.
#[derive(Drop)]
pub enum BuildStop {
    UnknownSource,
    NotGiven(Vec<u8>),
    NothingGiven(Lack),
    OutOfMemory,
}

impl From<AllocError> for BuildStop {
    fn from(_error: AllocError) -> BuildStop {
        BuildStop::OutOfMemory
    }
}

/// A fault of a field that was judged before can be want of memory alone.
impl From<RelationError> for BuildStop {
    fn from(_error: RelationError) -> BuildStop {
        BuildStop::OutOfMemory
    }
}
