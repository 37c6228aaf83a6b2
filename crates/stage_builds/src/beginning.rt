//! What is there at the beginning.

use crate::Scope;
use crate::known::Known;
use deb_relation::{Atom, Entry, Relations};
use deb_stanza::Paragraphs;
use farm_model::Mode;
use import_closure::{Closure, Given, PackageNames, Pools, Shelf, comes_before, is_fitting};
use std::alloc::{AllocError, Global};
use std::cmp::Ordering;
use std::collections::BTreeSet;

/// What is there at the beginning: all of the archive's index, or else what `Archive` and the base
/// chroots take of it and, in mode arch, what is for all architectures.
#[derive(Drop)]
pub struct Beginning {
    /// The blocks that are taken, if not all are.
    taken: Option<BTreeSet<u32>>,
    pub(crate) for_all: ForAll,
    /// Whether a package can be installed by what is there alone, by block.
    closed: Known,
}

/// Which packages are for all architectures, by block.
#[derive(Drop)]
pub struct ForAll {
    known: Known,
}

/// Tells whether the package of a block is for all architectures.
fn read_for_all(alloc: Global, block: &[u8]) -> Result<bool, AllocError> {
    let Ok(paragraphs) = Paragraphs::read(alloc, block) else {
        return Err(AllocError);
    };
    if paragraphs.count() == 0 {
        return Ok(false);
    }
    Ok(paragraphs.field(0, b"Architecture") == Some(b"all".as_slice()))
}

impl ForAll {
    /// No block was looked at.
    pub(crate) fn new(alloc: Global) -> ForAll {
        ForAll {
            known: Known::new(alloc),
        }
    }

    /// Tells whether the package of a block is for all architectures.
    pub fn has(&mut self, alloc: Global, shelf: &Shelf, number: u32) -> Result<bool, AllocError> {
        if let Some(answer) = self.known.get(number) {
            return Ok(answer);
        }
        let answer = read_for_all(alloc, shelf.block(number))?;
        self.known.set(number, answer)?;
        Ok(answer)
    }
}

/// An entry for each Essential package.
fn essential_entries(alloc: Global, names: &BTreeSet<Vec<u8>>) -> Result<Relations, AllocError> {
    let mut entries = Vec::new(alloc);
    for name in names {
        let mut alternatives = Vec::new(alloc);
        alternatives.push(Atom::unrestricted(alloc, name, None, None)?)?;
        entries.push(Entry::from_alternatives(alternatives))?;
    }
    Ok(Relations::from_entries(entries))
}

/// What is to be there: what the wish says, what is Essential, and what base chroots hold.
fn wanted(scope: Scope, archive: &Relations) -> Result<Vec<Relations>, AllocError> {
    let mut wanted = Vec::new(scope.alloc);
    wanted.push(archive.clone()?)?;
    wanted.push(essential_entries(scope.alloc, &scope.archive.essential)?)?;
    for packages in scope.asked.chroots {
        wanted.push(packages.clone()?)?;
    }
    Ok(wanted)
}

/// The blocks that are taken of the archive's index.
fn taken(
    scope: Scope,
    shelf: &mut Shelf,
    archive: &Relations,
) -> Result<BTreeSet<u32>, AllocError> {
    let none = PackageNames::new(scope.alloc);
    let pools = Pools {
        archive: scope.archive,
        takes_archive: true,
        outputs: &none,
    };
    let mut closure = Closure::new(scope.alloc);
    closure.close(scope.alloc, shelf, pools, wanted(scope, archive)?)?;
    Ok(closure.begin)
}

/// Tells whether a package satisfies an alternative, and better than the best so far.
fn is_better(shelf: &Shelf, atom: &Atom, best: Option<u32>, given: &Given) -> bool {
    if !is_fitting(atom, given) {
        return false;
    }
    let Some(so_far) = best else {
        return true;
    };
    match shelf.given(so_far) {
        Some(other) => comes_before(atom.name(), given, other),
        None => true,
    }
}

/// What a package needs: Pre-Depends, then Depends.
pub fn needs_of(alloc: Global, shelf: &Shelf, number: u32) -> Result<Vec<Relations>, AllocError> {
    let mut fields = Vec::new(alloc);
    if let Some(given) = shelf.given(number) {
        fields.push(given.relations.pre_depends.clone()?)?;
        fields.push(given.relations.depends.clone()?)?;
    }
    Ok(fields)
}

/// The name of a package.
fn name_of(alloc: Global, shelf: &Shelf, number: u32) -> Result<Vec<u8>, AllocError> {
    match shelf.given(number) {
        Some(given) => Vec::from_slice(alloc, &given.name),
        None => Ok(Vec::new(alloc)),
    }
}

/// Tells whether the packages of two blocks have one version.
fn is_same_version(shelf: &Shelf, number: u32, other: u32) -> bool {
    match (shelf.given(number), shelf.given(other)) {
        (Some(one), Some(two)) => one.version.compare(&two.version) == Ordering::Equal,
        _ => false,
    }
}

impl Beginning {
    /// What is there at the beginning, where this is asked.
    pub(crate) fn new(scope: Scope, shelf: &mut Shelf) -> Result<Beginning, AllocError> {
        let taken = match scope.asked.archive {
            Some(archive) => Some(taken(scope, shelf, archive)?),
            None => None,
        };
        Ok(Beginning {
            taken,
            for_all: ForAll::new(scope.alloc),
            closed: Known::new(scope.alloc),
        })
    }

    /// Tells whether the package of a block of the archive's index is there.
    fn has_block(&mut self, scope: Scope, shelf: &Shelf, number: u32) -> Result<bool, AllocError> {
        let Some(taken) = &self.taken else {
            return Ok(true);
        };
        if taken.contains(&number) {
            return Ok(true);
        }
        match scope.asked.mode {
            Mode::Arch => self.for_all.has(scope.alloc, shelf, number),
            Mode::Full | Mode::Indep => Ok(false),
        }
    }

    /// Lists the packages of a name that are there.
    fn list(
        &mut self,
        scope: Scope,
        shelf: &Shelf,
        name: &[u8],
        names: &mut PackageNames,
    ) -> Result<(), AllocError> {
        for number in scope.archive.own.listed(name) {
            if self.has_block(scope, shelf, *number)? {
                let block = shelf.block(*number);
                names.add_block(scope.alloc, scope.architectures, *number, block)?;
            }
        }
        Ok(())
    }

    /// The names of what is there, where that is not all of the archive's index. What is Essential in
    /// the index is so here.
    pub(crate) fn names(
        &mut self,
        scope: Scope,
        shelf: &Shelf,
    ) -> Result<Option<PackageNames>, AllocError> {
        if self.taken.is_none() {
            return Ok(None);
        }
        let mut names = PackageNames::new(scope.alloc);
        for name in &scope.archive.own.names(scope.alloc)? {
            self.list(scope, shelf, name, &mut names)?;
        }
        for name in &scope.archive.essential {
            names.essential.insert(Vec::from_slice(scope.alloc, name)?)?;
        }
        Ok(Some(names))
    }

    /// Tells whether a package is there, by name and version.
    pub(crate) fn has(
        &mut self,
        scope: Scope,
        shelf: &mut Shelf,
        number: u32,
    ) -> Result<bool, AllocError> {
        let name = name_of(scope.alloc, shelf, number)?;
        shelf.look_at(scope.alloc, scope.archive, &name)?;
        for other in scope.archive.own.listed(&name) {
            if is_same_version(shelf, *other, number) {
                if self.has_block(scope, shelf, *other)? {
                    return Ok(true);
                }
            }
        }
        Ok(false)
    }

    /// The best of these blocks that is there, for an alternative.
    fn best_of(
        &mut self,
        scope: Scope,
        shelf: &Shelf,
        atom: &Atom,
        numbers: &[u32],
    ) -> Result<Option<u32>, AllocError> {
        let mut best = None;
        for number in numbers {
            if let Some(given) = shelf.given(*number) {
                if is_better(shelf, atom, best, given) {
                    if self.has_block(scope, shelf, *number)? {
                        best = Some(*number);
                    }
                }
            }
        }
        Ok(best)
    }

    /// The best that is there for an alternative; of those that provide its name only where none
    /// has it as its own.
    fn best_for_atom(
        &mut self,
        scope: Scope,
        shelf: &mut Shelf,
        atom: &Atom,
    ) -> Result<Option<u32>, AllocError> {
        shelf.look_at(scope.alloc, scope.archive, atom.name())?;
        let own = self.best_of(scope, shelf, atom, scope.archive.own.listed(atom.name()))?;
        if own.is_some() {
            return Ok(own);
        }
        let providers = scope.archive.provided.listed(atom.name());
        shelf.look_at_all(scope.alloc, scope.archive, providers)?;
        self.best_of(scope, shelf, atom, providers)
    }

    /// The best that is there for an entry.
    pub(crate) fn best(
        &mut self,
        scope: Scope,
        shelf: &mut Shelf,
        entry: &Entry,
    ) -> Result<Option<u32>, AllocError> {
        for atom in entry.alternatives() {
            if let Some(best) = self.best_for_atom(scope, shelf, atom)? {
                return Ok(Some(best));
            }
        }
        Ok(None)
    }

    /// Puts what a field needs, as far as it is not known to be closed, behind other packages.
    /// Tells whether all of it is there and nothing of it is known not to be closed.
    fn push_needs(
        &mut self,
        scope: Scope,
        shelf: &mut Shelf,
        field: &Relations,
        found: &mut BTreeSet<u32>,
        todo: &mut Vec<u32>,
    ) -> Result<bool, AllocError> {
        for entry in field.entries() {
            let Some(number) = self.best(scope, shelf, entry)? else {
                return Ok(false);
            };
            match self.closed.get(number) {
                Some(true) => {}
                Some(false) => return Ok(false),
                None => push_new(found, todo, number)?,
            }
        }
        Ok(true)
    }

    /// The same of all fields of a package.
    fn push_all_needs(
        &mut self,
        scope: Scope,
        shelf: &mut Shelf,
        number: u32,
        found: &mut BTreeSet<u32>,
        todo: &mut Vec<u32>,
    ) -> Result<bool, AllocError> {
        for field in &needs_of(scope.alloc, shelf, number)? {
            if !self.push_needs(scope, shelf, field, found, todo)? {
                return Ok(false);
            }
        }
        Ok(true)
    }

    /// Goes over all that a package needs to be installed, and tells whether it is all there.
    fn close(
        &mut self,
        scope: Scope,
        shelf: &mut Shelf,
        todo: &mut Vec<u32>,
    ) -> Result<bool, AllocError> {
        let mut found = BTreeSet::new(scope.alloc);
        for at in 0..usize::MAX {
            let Some(number) = todo.get(at).copied() else {
                return Ok(true);
            };
            if !self.push_all_needs(scope, shelf, number, &mut found, todo)? {
                return Ok(false);
            }
        }
        Ok(false)
    }

    /// Tells whether a package that is there can be installed by what is there alone. Conflicts are
    /// not looked at.
    pub(crate) fn is_closed(
        &mut self,
        scope: Scope,
        shelf: &mut Shelf,
        number: u32,
    ) -> Result<bool, AllocError> {
        if let Some(answer) = self.closed.get(number) {
            return Ok(answer);
        }
        let mut todo = Vec::new(scope.alloc);
        todo.push(number)?;
        let answer = self.close(scope, shelf, &mut todo)?;
        self.closed.set(number, answer)?;
        if answer {
            // all that it needs can be installed with it
            for other in &todo {
                self.closed.set(*other, true)?;
            }
        }
        Ok(answer)
    }
}

/// Puts a package behind others, once.
fn push_new(found: &mut BTreeSet<u32>, todo: &mut Vec<u32>, number: u32) -> Result<(), AllocError> {
    if found.insert(number)? {
        todo.push(number)?;
    }
    Ok(())
}
