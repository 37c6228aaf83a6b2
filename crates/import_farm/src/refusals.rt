//! Why there is no farm.

use deb_relation::Entry;
use deb_text::Fault;
use import_closure::BuildStop;
use import_wish::WishedRecipe;
use std::alloc::{AllocError, Global};

/// A recipe of a wish whose build cannot be made: its line, its name, its source with the version that
/// is wanted, if one is, and why.
#[derive(Drop)]
pub struct RefusedRecipe {
    pub line: u32,
    pub name: Vec<u8>,
    pub source: Vec<u8>,
    pub version: Option<Vec<u8>>,
    pub stop: BuildStop,
}

/// What a refusal is about: a fault in the text of a name that was given; a fault in a text that was
/// made, with the line that it is in; a chroot, and an entry of it that nothing meets or a name of
/// which it would hold two versions.
#[derive(Drop)]
pub enum Refusal {
    Fault(Vec<u8>, Fault),
    Made(Fault, Vec<u8>),
    Unmet(Vec<u8>, Entry),
    Twice(Vec<u8>, Vec<u8>),
}

/// Why there is no farm: a refusal; the lines of that of recipes, or of what is over a limit; that what
/// was made is not the farm of the wish; or want of memory.
#[derive(Drop)]
pub enum Stop {
    Refused(Refusal),
    Told(Vec<u8>),
    Wrong,
    OutOfMemory,
}

impl From<AllocError> for Stop {
    fn from(_error: AllocError) -> Stop {
        Stop::OutOfMemory
    }
}

/// A fault in a text that was made, with the line that it is in.
pub fn made_fault(alloc: Global, fault: Fault, line: &[u8]) -> Stop {
    if fault == Fault::MEMORY {
        return Stop::OutOfMemory;
    }
    match Vec::from_slice(alloc, line) {
        Ok(line) => Stop::Refused(Refusal::Made(fault, line)),
        Err(AllocError) => Stop::OutOfMemory,
    }
}

/// A fault in the text of a name that was given.
pub fn fault_in(alloc: Global, name: &[u8], fault: Fault) -> Stop {
    if fault == Fault::MEMORY {
        return Stop::OutOfMemory;
    }
    match Vec::from_slice(alloc, name) {
        Ok(name) => Stop::Refused(Refusal::Fault(name, fault)),
        Err(AllocError) => Stop::OutOfMemory,
    }
}

/// A recipe whose build cannot be made.
pub fn refused_recipe(
    alloc: Global,
    wished: &WishedRecipe,
    stop: BuildStop,
) -> Result<RefusedRecipe, AllocError> {
    let version = match &wished.source.version {
        Some(version) => Some(Vec::from_slice(alloc, version)?),
        None => None,
    };
    Ok(RefusedRecipe {
        line: wished.line,
        name: Vec::from_slice(alloc, &wished.name)?,
        source: Vec::from_slice(alloc, &wished.source.name)?,
        version,
        stop,
    })
}
