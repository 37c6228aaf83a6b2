//! The blocks of Packages indexes, and what was read of them.

use crate::looks::{Look, Unreadable};
use crate::{Given, PackageNames, comes_before, is_fitting, read_given};
use deb_fields::Paragraph;
use deb_profile::ArchNames;
use deb_relation::{Atom, Entry, RelationError};
use deb_stanza::Paragraphs;
use deb_text::MEMORY;
use deb_version::Version;
use std::alloc::{AllocError, Global};
use std::collections::BTreeSet;

/// Blocks of Packages indexes, read for an architecture of these names.
#[derive(Drop)]
pub struct Shelf<'a> {
    blocks: &'a [&'a [u8]],
    architectures: &'a ArchNames,
    looks: Vec<Look>,
    kept: Vec<Given>,
    unreadable: Vec<Unreadable>,
}

impl<'a> Shelf<'a> {
    /// Blocks of which nothing was read.
    pub fn new(
        alloc: Global,
        blocks: &'a [&'a [u8]],
        architectures: &'a ArchNames,
    ) -> Result<Shelf<'a>, AllocError> {
        Ok(Shelf {
            blocks,
            architectures,
            looks: Vec::from_elem(alloc, Look::Unseen, blocks.len())?,
            kept: Vec::new(alloc),
            unreadable: Vec::new(alloc),
        })
    }

    /// The bytes of the block of a number; none where there is no such block.
    pub fn block(&self, number: u32) -> &'a [u8] {
        match self.blocks.get(number as usize) {
            Some(block) => block,
            None => b"",
        }
    }

    /// The package of a block, if it was read and counts.
    pub fn given(&self, number: u32) -> Option<&Given> {
        match self.looks.get(number as usize) {
            Some(Look::Kept(place)) => self.kept.get(*place as usize),
            _ => None,
        }
    }

    /// Which paragraphs were looked at and cannot be read, in the order of the looks.
    pub fn unreadable(&self) -> &[Unreadable] {
        &self.unreadable
    }

    fn is_unseen(&self, number: u32) -> bool {
        self.looks.get(number as usize) == Some(&Look::Unseen)
    }

    fn note(&mut self, number: u32, look: Look) {
        if let Some(known) = self.looks.get_mut(number as usize) {
            *known = look;
        }
    }

    /// Reads the first paragraph of a block.
    fn read(&self, alloc: Global, block: &[u8]) -> Result<Given, RelationError> {
        let Ok(paragraphs) = Paragraphs::read(alloc, block) else {
            return Err(RelationError { code: MEMORY });
        };
        if paragraphs.count() == 0 {
            return Err(RelationError {
                code: deb_fields::ABSENT,
            });
        }
        read_given(alloc, self.architectures, &Paragraph::new(&paragraphs, 0))
    }

    fn keep(&mut self, number: u32, given: Given) -> Result<(), AllocError> {
        let place = self.kept.len();
        if place >= u32::MAX as usize {
            return Err(AllocError);
        }
        self.kept.push(given)?;
        self.note(number, Look::Kept(place as u32));
        Ok(())
    }

    fn keep_unreadable(&mut self, number: u32, code: u16) -> Result<(), AllocError> {
        self.unreadable.push(Unreadable { number, code })?;
        self.note(number, Look::Unreadable);
        Ok(())
    }

    /// Keeps a package, unless its version is one of those before it.
    fn keep_new(
        &mut self,
        number: u32,
        given: Given,
        versions: &mut BTreeSet<Version>,
    ) -> Result<(), AllocError> {
        if !versions.insert(given.version.clone()?)? {
            self.note(number, Look::Shadowed);
            return Ok(());
        }
        self.keep(number, given)
    }

    /// Reads a block, behind others of its name that have these versions.
    fn look(
        &mut self,
        alloc: Global,
        number: u32,
        versions: &mut BTreeSet<Version>,
    ) -> Result<(), AllocError> {
        match self.read(alloc, self.block(number)) {
            Ok(given) => self.keep_new(number, given, versions),
            Err(error) if error.code == MEMORY => Err(AllocError),
            Err(error) => self.keep_unreadable(number, error.code),
        }
    }

    /// Reads all packages of a name, if they were not read.
    pub fn look_at(
        &mut self,
        alloc: Global,
        names: &PackageNames,
        name: &[u8],
    ) -> Result<(), AllocError> {
        let mut versions = BTreeSet::new(alloc);
        for number in names.own.listed(name) {
            if !self.is_unseen(*number) {
                return Ok(());
            }
            self.look(alloc, *number, &mut versions)?;
        }
        Ok(())
    }

    /// The name in the paragraph of a block.
    fn name_of(&self, alloc: Global, number: u32) -> Result<Vec<u8>, AllocError> {
        if let Some(given) = self.given(number) {
            return Vec::from_slice(alloc, &given.name);
        }
        let Ok(paragraphs) = Paragraphs::read(alloc, self.block(number)) else {
            return Err(AllocError);
        };
        if paragraphs.count() == 0 {
            return Ok(Vec::new(alloc));
        }
        match paragraphs.field(0, b"Package") {
            Some(name) => Vec::from_slice(alloc, name),
            None => Ok(Vec::new(alloc)),
        }
    }

    /// Reads all packages of the names of these blocks, so far as they were not read.
    pub fn look_at_all(
        &mut self,
        alloc: Global,
        names: &PackageNames,
        numbers: &[u32],
    ) -> Result<(), AllocError> {
        for number in numbers {
            if self.is_unseen(*number) {
                let name = self.name_of(alloc, *number)?;
                self.look_at(alloc, names, &name)?;
            }
        }
        Ok(())
    }

    /// The better one of a block so far and another block, for an alternative.
    fn better(&self, atom: &Atom, best: Option<u32>, number: u32) -> Option<u32> {
        let Some(given) = self.given(number) else {
            return best;
        };
        if !is_fitting(atom, given) {
            return best;
        }
        let Some(so_far) = best else {
            return Some(number);
        };
        match self.given(so_far) {
            Some(other) if comes_before(atom.name(), given, other) => Some(number),
            _ => best,
        }
    }

    /// The best of these blocks, for an alternative.
    fn best_of(&self, atom: &Atom, numbers: &[u32]) -> Option<u32> {
        let mut best = None;
        for number in numbers {
            best = self.better(atom, best, *number);
        }
        best
    }

    /// The best of all packages of these names, for an alternative. Those that provide its name
    /// are read where none has it as its own.
    fn best_for_atom(
        &mut self,
        alloc: Global,
        names: &PackageNames,
        atom: &Atom,
    ) -> Result<Option<u32>, AllocError> {
        self.look_at(alloc, names, atom.name())?;
        let own = self.best_of(atom, names.own.listed(atom.name()));
        if own.is_some() {
            return Ok(own);
        }
        let providers = names.provided.listed(atom.name());
        self.look_at_all(alloc, names, providers)?;
        Ok(self.best_of(atom, providers))
    }

    /// The block of the best that meets an entry, of the packages of these names.
    pub fn best(
        &mut self,
        alloc: Global,
        names: &PackageNames,
        entry: &Entry,
    ) -> Result<Option<u32>, AllocError> {
        for atom in entry.alternatives() {
            if let Some(best) = self.best_for_atom(alloc, names, atom)? {
                return Ok(Some(best));
            }
        }
        Ok(None)
    }
}
