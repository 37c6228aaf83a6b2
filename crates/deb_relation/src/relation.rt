//! Relations to versions, as callers have them: as their own, or of a text that is kept elsewhere.

ghost use Rattle.std.specs.Prelude.{◌≡◌, IfOk};

use crate::operator::Op;
use deb_version::{Version, VersionRef};
use std::alloc::{AllocError, Global};

/// A relation that the caller has, its version where it is.
pub fn view_relation(relation: &Option<(Op, Version)>) -> Option<(Op, VersionRef<'_>)>
    ensures { result ≡ relation.now }
{
    match relation {
        Some((op, version)) => Some((*op, version.view())),
        None => None,
    }
}

/// Copies a relation.
pub fn copy_relation(
    alloc: Global,
    relation: Option<(Op, VersionRef)>,
) -> Result<Option<(Op, Version)>, AllocError>
    ensures { IfOk result (λ copy. copy ≡ relation.entry) }
{
    match relation {
        Some((op, version)) => Ok(Some((op, version.to_version(alloc)?))),
        None => Ok(None),
    }
}
