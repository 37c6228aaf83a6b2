//! What targets are made of at the end.

use deb_relation::{Entry, Relations, is_same_entry};
use farm_model::Mode;
use import_closure::Shelf;
use stage_builds::{ForAll, Scope, needs_of};
use std::alloc::{AllocError, Global};
use std::collections::BTreeSet;

/// An entry that no package of the target's index meets, and the block of the package that needs it,
/// if it is none of the targets themselves.
#[derive(Drop)]
pub struct UnmetTarget {
    pub entry: Entry,
    pub needed_by: Option<u32>,
}

/// The blocks of the packages that targets are made of, closed by the best for each entry over
/// Pre-Depends and Depends, and what no package meets.
#[derive(Drop)]
pub struct Members {
    pub blocks: Vec<u32>,
    pub unmet: Vec<UnmetTarget>,
}

fn is_known(unmet: &[UnmetTarget], entry: &Entry) -> bool {
    unmet.iter().any(|known| is_same_entry(known.entry.alternatives(), entry.alternatives()))
}

/// Takes the best that meets an entry.
fn take_entry(
    scope: Scope,
    shelf: &mut Shelf,
    members: &mut Members,
    found: &mut BTreeSet<u32>,
    entry: &Entry,
    needed_by: Option<u32>,
) -> Result<(), AllocError> {
    match shelf.best(scope.alloc, scope.target, entry)? {
        Some(number) => {
            if found.insert(number)? {
                members.blocks.push(number)?;
            }
        }
        None => {
            if !is_known(&members.unmet, entry) {
                let entry = entry.clone()?;
                members.unmet.push(UnmetTarget { entry, needed_by })?;
            }
        }
    }
    Ok(())
}

/// Takes the best for each entry of a field.
fn take_field(
    scope: Scope,
    shelf: &mut Shelf,
    members: &mut Members,
    found: &mut BTreeSet<u32>,
    field: &Relations,
    needed_by: Option<u32>,
) -> Result<(), AllocError> {
    for entry in field.entries() {
        take_entry(scope, shelf, members, found, entry, needed_by)?;
    }
    Ok(())
}

fn no_members(alloc: Global) -> Members {
    Members {
        blocks: Vec::new(alloc),
        unmet: Vec::new(alloc),
    }
}

/// Takes what members need, from the first on.
fn close(
    scope: Scope,
    shelf: &mut Shelf,
    members: &mut Members,
    found: &mut BTreeSet<u32>,
) -> Result<(), AllocError> {
    for at in 0..usize::MAX {
        let Some(number) = members.blocks.get(at).copied() else {
            return Ok(());
        };
        for field in &needs_of(scope.alloc, shelf, number)? {
            take_field(scope, shelf, members, found, field, Some(number))?;
        }
    }
    Err(AllocError)
}

/// What the targets are made of.
pub(crate) fn read_members(scope: Scope, shelf: &mut Shelf) -> Result<Members, AllocError> {
    let mut members = no_members(scope.alloc);
    let mut found = BTreeSet::new(scope.alloc);
    take_field(
        scope,
        shelf,
        &mut members,
        &mut found,
        scope.asked.targets,
        None,
    )?;
    close(scope, shelf, &mut members, &mut found)?;
    Ok(members)
}

/// The members that are to be built: all but, in mode arch, those for all architectures.
pub(crate) fn built_members(
    scope: Scope,
    shelf: &Shelf,
    for_all: &mut ForAll,
    members: &[u32],
) -> Result<Vec<u32>, AllocError> {
    let mut built = Vec::new(scope.alloc);
    for number in members {
        let is_left_out = match scope.asked.mode {
            Mode::Arch => for_all.has(scope.alloc, shelf, *number)?,
            Mode::Full | Mode::Indep => false,
        };
        if !is_left_out {
            built.push(*number)?;
        }
    }
    Ok(built)
}
