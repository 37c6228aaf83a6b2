//! Notes on packages that are `same` and whose versions differ.

use crate::clear::{Members, push_binary};
use cross_laws::types::Side;
use cross_relations::{Binary, is_same};
use deb_fields::Paragraph;
use deb_text::{cut_at_first, trim};
use deb_version::VersionRef;
use std::alloc::{AllocError, Global};
use std::cmp::Ordering;
use std::collections::{BTreeMap, BTreeSet};

fn is_of(binary: &Binary, side: Side) -> bool {
    match (binary.side(), side) {
        (Side::Build, Side::Build) => is_same(binary.multi_arch()),
        (Side::Host, Side::Host) => is_same(binary.multi_arch()),
        _ => false,
    }
}

/// The packages of the host that are `same`, by name.
fn of_host(alloc: Global, all: &[Binary]) -> Result<BTreeMap<Vec<u8>, Vec<usize>>, AllocError> {
    let mut found: BTreeMap<Vec<u8>, Vec<usize>> = BTreeMap::new(alloc);
    for (at, binary) in all.iter().enumerate() {
        if is_of(binary, Side::Host) {
            add(alloc, &mut found, binary.name(), at)?;
        }
    }
    Ok(found)
}

fn add(
    alloc: Global,
    found: &mut BTreeMap<Vec<u8>, Vec<usize>>,
    name: &[u8],
    at: usize,
) -> Result<(), AllocError> {
    if let Some(list) = found.get_mut(name) {
        list.push(at)?;
        return Ok(());
    }
    let mut list = Vec::new(alloc);
    list.push(at)?;
    found.insert(Vec::from_slice(alloc, name)?, list)?;
    Ok(())
}

fn compared(a: VersionRef, b: VersionRef) -> Ordering {
    a.compare(&b)
}

/// Of the packages of a name of the architecture on which is built that are `same` the highest one;
/// none where one has the version of this package, or there are none.
fn other_version(all: &[Binary], binary: &Binary) -> Option<usize> {
    let mut highest: Option<usize> = None;
    for at in 0..all.len() {
        let other = &all[at];
        if is_of(other, Side::Build) && other.name() == binary.name() {
            if compared(other.version(), binary.version()) == Ordering::Equal {
                return None;
            }
            highest = match highest {
                Some(best)
                    if best < all.len()
                        && compared(all[best].version(), other.version()) != Ordering::Less => {
                    highest
                }
                _ => Some(at),
            };
        }
    }
    highest
}

/// Puts the source of the package of a number behind a text.
fn push_source(
    alloc: Global,
    text: &mut Vec<u8>,
    members: Members,
    at: usize,
) -> Result<(), AllocError> {
    if at >= members.paragraphs.count() {
        return Ok(());
    }
    let paragraph = Paragraph::new(members.paragraphs, at);
    let value = match paragraph.field(b"Source") {
        Some(value) => value,
        None => paragraph.field(b"Package").unwrap_or(b""),
    };
    let name = match cut_at_first(b'(', value) {
        Some((name, _)) => trim(name),
        None => value,
    };
    text.extend_from_slice(name)
}

/// What is said of two packages of these numbers: the older one is to be brought up.
fn skew(alloc: Global, members: Members, one: usize, other: usize) -> Result<Vec<u8>, AllocError> {
    let mut note = Vec::from_slice(alloc, b"note: ")?;
    if one >= members.all.len() || other >= members.all.len() {
        return Ok(note);
    }
    let (first, second) = (&members.all[one], &members.all[other]);
    push_binary(alloc, &mut note, members.sides, first)?;
    note.extend_from_slice(b" and ")?;
    push_binary(alloc, &mut note, members.sides, second)?;
    note.extend_from_slice(
        b" are Multi-Arch: same: of different versions they exclude each other; source ",
    )?;
    let is_first = compared(first.version(), second.version()) == Ordering::Less;
    push_source(
        alloc,
        &mut note,
        members,
        if is_first { one } else { other },
    )?;
    note.extend_from_slice(b" is to be brought up\n")?;
    Ok(note)
}

/// Puts a note behind a text, unless it stands there.
fn push_new(
    text: &mut Vec<u8>,
    seen: &mut BTreeSet<Vec<u8>>,
    note: Vec<u8>,
) -> Result<(), AllocError> {
    if seen.contains(&note) {
        return Ok(());
    }
    text.extend_from_slice(&note)?;
    seen.insert(note)?;
    Ok(())
}

/// Puts notes on packages of the host behind a text that are `same`, and whose versions those of
/// the architecture on which is built do not have.
pub fn push_skews(alloc: Global, text: &mut Vec<u8>, members: Members) -> Result<(), AllocError> {
    let mut seen = BTreeSet::new(alloc);
    for (_, numbers) in &of_host(alloc, members.all)? {
        for at in numbers {
            if *at < members.all.len() {
                if let Some(other) = other_version(members.all, &members.all[*at]) {
                    let note = skew(alloc, members, other, *at)?;
                    push_new(text, &mut seen, note)?;
                }
            }
        }
    }
    Ok(())
}
