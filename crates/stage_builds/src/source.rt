//! The version of a source that is built.

use crate::Scope;
use deb_version::Version;
use import_closure::{Shelf, SourceHere, SourceShelf};
use std::alloc::AllocError;
use std::cmp::Ordering;

/// Tells whether the target's index has a package of this version of a source.
fn has_packages(scope: Scope, shelf: &Shelf, name: &[u8], version: &Version) -> bool {
    for number in scope.target.made.listed(name) {
        if let Some(given) = shelf.given(*number) {
            let source = &given.source;
            if source.name.as_slice() == name
                && source.version.compare(version) == Ordering::Equal
            {
                return true;
            }
        }
    }
    false
}

/// Tells whether a source is to be built in place of the one so far: one that has packages before
/// one that has none, then the higher version.
fn is_better(best: Option<(&Version, bool)>, version: &Version, has_packages: bool) -> bool {
    match best {
        Some((other, other_has)) => {
            if has_packages == other_has {
                version.compare(other) == Ordering::Greater
            } else {
                has_packages
            }
        }
        None => true,
    }
}

/// The place of the source that is built, of those that fit.
fn best_place(scope: Scope, shelf: &Shelf, name: &[u8], fitting: &[SourceHere]) -> Option<usize> {
    let mut place = None;
    let mut best: Option<(&Version, bool)> = None;
    for at in 0..fitting.len() {
        let version = &fitting[at].version;
        let has = has_packages(scope, shelf, name, version);
        if is_better(best, version, has) {
            best = Some((version, has));
            place = Some(at);
        }
    }
    place
}

/// The source of a name that is built: of those that the indexes have the highest that the target's
/// index has packages of, or else the highest. Nothing where they have none.
pub(crate) fn chosen_source(
    scope: Scope,
    shelf: &mut Shelf,
    sources: &mut SourceShelf,
    name: &[u8],
) -> Result<Option<SourceHere>, AllocError> {
    let fitting = sources.fitting(scope.alloc, name, None)?;
    shelf.look_at_all(scope.alloc, scope.target, scope.target.made.listed(name))?;
    match best_place(scope, shelf, name, &fitting) {
        Some(place) => Ok(fitting.into_iter().nth(place)),
        None => Ok(None),
    }
}
