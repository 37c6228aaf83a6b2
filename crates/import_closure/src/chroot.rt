//! What a base chroot holds.

use crate::PackageNames;
use crate::shelf::Shelf;
use deb_relation::{Atom, Entry, Relations};
use std::alloc::{AllocError, Global};
use std::collections::BTreeSet;

/// Why a base chroot cannot be made: nothing meets an entry, or memory is refused.
#[derive(Drop)]
pub enum ChrootStop {
    Unmet(Entry),
    OutOfMemory,
}

impl From<AllocError> for ChrootStop {
    fn from(_error: AllocError) -> ChrootStop {
        ChrootStop::OutOfMemory
    }
}

/// An entry for each Essential package.
fn essential_entries(alloc: Global, names: &BTreeSet<Vec<u8>>) -> Result<Relations, AllocError> {
    let mut entries = Vec::new(alloc);
    for name in names {
        let mut alternatives = Vec::new(alloc);
        alternatives.push(Atom::unrestricted(alloc, name, None, None)?)?;
        entries.push(Entry::from_alternatives(alternatives))?;
    }
    Ok(Relations::from_entries(entries))
}

/// The members that the entries of a field add to others: the blocks of the new ones.
fn meet_field(
    alloc: Global,
    shelf: &mut Shelf,
    names: &PackageNames,
    field: &Relations,
    members: &mut BTreeSet<u32>,
) -> Result<Vec<u32>, ChrootStop> {
    let mut new = Vec::new(alloc);
    for entry in field.entries() {
        match shelf.best(alloc, names, entry)? {
            Some(number) => add_member(members, number, &mut new)?,
            None => return Err(ChrootStop::Unmet(entry.clone()?)),
        }
    }
    Ok(new)
}

fn add_member(
    members: &mut BTreeSet<u32>,
    number: u32,
    new: &mut Vec<u32>,
) -> Result<(), AllocError> {
    if members.insert(number)? {
        new.push(number)?;
    }
    Ok(())
}

/// Puts what a package needs behind other fields.
fn push_needs(shelf: &Shelf, number: u32, fields: &mut Vec<Relations>) -> Result<(), AllocError> {
    if let Some(given) = shelf.given(number) {
        fields.push(given.relations.pre_depends.clone()?)?;
        fields.push(given.relations.depends.clone()?)?;
    }
    Ok(())
}

fn first_fields(
    alloc: Global,
    names: &PackageNames,
    packages: Relations,
) -> Result<Vec<Relations>, AllocError> {
    let mut fields = Vec::new(alloc);
    fields.push(essential_entries(alloc, &names.essential)?)?;
    fields.push(packages)?;
    Ok(fields)
}

/// The blocks of what a base chroot holds: the best for each Essential package, for each entry of
/// its packages, and for what those need.
///
/// # Errors
///
/// [`ChrootStop::Unmet`] of the first entry that nothing meets, [`ChrootStop::OutOfMemory`] where
/// memory is refused.
pub fn chroot_members(
    alloc: Global,
    shelf: &mut Shelf,
    names: &PackageNames,
    packages: Relations,
) -> Result<BTreeSet<u32>, ChrootStop> {
    let mut members = BTreeSet::new(alloc);
    let mut fields = first_fields(alloc, names, packages)?;
    for at in 0..usize::MAX {
        let Some(field) = fields.get(at) else {
            return Ok(members);
        };
        for number in meet_field(alloc, shelf, names, field, &mut members)? {
            push_needs(shelf, number, &mut fields)?;
        }
    }
    Err(ChrootStop::OutOfMemory)
}
