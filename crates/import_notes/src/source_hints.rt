//! What may be meant by the name of a source that the indexes lack.

use deb_text::push_pieces;
use explain_faults::{NearNames, is_near_or_longer};
use import_closure::{Given, NameTable, PackageNames, Shelf};
use std::alloc::{AllocError, Global};
use std::cmp::Ordering;

/// The packages that builds give, and the names of packages and of sources.
#[derive(Drop)]
pub struct Indexes<'a, 's> {
    pub shelf: &'a mut Shelf<'s>,
    pub packages: &'a PackageNames,
    pub sources: &'a NameTable,
}

/// Puts the first of these names that are near another behind a text.
fn push_near(
    alloc: Global,
    text: &mut Vec<u8>,
    name: &[u8],
    names: &[&[u8]],
) -> Result<(), AllocError> {
    let mut near = NearNames::new(alloc);
    for other in names {
        if is_near_or_longer(name, *other) {
            near.keep(*other)?;
        }
    }
    near.push(text, b"")
}

/// Tells whether a name goes on from another behind a hyphen, as `gcc-14-stage1` from `gcc-14`.
fn goes_on_from(name: &[u8], other: &[u8]) -> bool {
    name.starts_with(other) && name[other.len()..].starts_with(b"-")
}

/// The longest of these names that another goes on from.
fn begun<'a>(name: &[u8], names: &[&'a [u8]]) -> Option<&'a [u8]> {
    let mut longest: Option<&'a [u8]> = None;
    for other in names {
        let is_longer = match longest {
            Some(so_far) => so_far.len() < other.len(),
            None => true,
        };
        if is_longer && goes_on_from(name, *other) {
            longest = Some(*other);
        }
    }
    longest
}

/// The higher one of a package so far and another package.
fn higher<'a>(best: Option<&'a Given>, given: &'a Given) -> &'a Given {
    match best {
        Some(other) if given.version.compare(&other.version) != Ordering::Greater => other,
        _ => given,
    }
}

/// The source of the highest package of a name, of those that were looked at.
fn source_of<'a>(shelf: &'a Shelf, packages: &PackageNames, name: &[u8]) -> Option<&'a [u8]> {
    let mut best: Option<&'a Given> = None;
    for number in packages.own.listed(name) {
        if let Some(given) = shelf.given(*number) {
            best = Some(higher(best, given));
        }
    }
    match best {
        Some(given) => Some(&given.source.name),
        None => None,
    }
}

fn push_meant(text: &mut Vec<u8>, meant: Option<&[u8]>) -> Result<(), AllocError> {
    match meant {
        Some(name) => push_pieces(text, &[b"; perhaps Source: ", name]),
        None => Ok(()),
    }
}

/// Puts behind a text what may be meant by a name that no source of the indexes has: names that are
/// near it; the source of the package of that name, or else one that it goes on from.
pub fn push_hint(
    alloc: Global,
    text: &mut Vec<u8>,
    indexes: &mut Indexes<'_, '_>,
    name: &[u8],
) -> Result<(), AllocError> {
    if !indexes.sources.listed(name).is_empty() {
        return Ok(());
    }
    let sources = indexes.sources;
    let names = sources.names(alloc)?;
    push_near(alloc, text, name, &names)?;
    indexes.shelf.look_at(alloc, indexes.packages, name)?;
    match source_of(&*indexes.shelf, indexes.packages, name) {
        Some(source) => push_meant(text, Some(source)),
        None => push_meant(text, begun(name, &names)),
    }
}
