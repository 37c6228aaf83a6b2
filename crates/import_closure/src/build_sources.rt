//! The sources of Sources indexes, read where they are looked at.

use crate::{NameTable, Source, Unreadable, judge_relations, read_source};
use deb_fields::{ABSENT, Paragraph};
use deb_relation::RelationError;
use deb_stanza::Paragraphs;
use deb_text::MEMORY;
use deb_version::Version;
use std::alloc::{AllocError, Global};
use std::cmp::Ordering;

/// A source that a block has, and its version.
#[derive(Drop)]
pub struct SourceHere {
    pub number: u32,
    pub version: Version,
}

/// Blocks of Sources indexes by the names of their sources, and those that were looked at and
/// cannot be read.
#[derive(Drop)]
pub struct SourceShelf<'a> {
    pub blocks: &'a [&'a [u8]],
    pub names: NameTable,
    pub unreadable: Vec<Unreadable>,
}

/// Reads the source that the first paragraph of a block is.
fn read_block(alloc: Global, block: &[u8]) -> Result<Source, RelationError> {
    let Ok(paragraphs) = Paragraphs::read(alloc, block) else {
        return Err(RelationError { code: MEMORY });
    };
    if paragraphs.count() == 0 {
        return Err(RelationError { code: ABSENT });
    }
    let paragraph = Paragraph::new(&paragraphs, 0);
    let source = read_source(alloc, &paragraph)?;
    judge_relations(&paragraph)?;
    Ok(source)
}

/// Tells whether one of these sources has a version.
fn has_version(sources: &[SourceHere], version: &Version) -> bool {
    sources.iter().any(|source| source.version.compare(version) == Ordering::Equal)
}

/// Tells whether a version is the wanted one, where one is wanted.
fn is_wanted(version: &Version, wanted: Option<&Version>) -> bool {
    match wanted {
        Some(wanted) => wanted.compare(version) == Ordering::Equal,
        None => true,
    }
}

impl SourceShelf<'_> {
    /// The bytes of the block of a number; none where there is no such block.
    pub fn block(&self, number: u32) -> &[u8] {
        match self.blocks.get(number as usize) {
            Some(block) => block,
            None => b"",
        }
    }

    fn note_unreadable(&mut self, number: u32, code: u16) -> Result<(), AllocError> {
        let found = Unreadable { number, code };
        if !self.unreadable.contains(&found) {
            self.unreadable.push(found)?;
        }
        Ok(())
    }

    /// Reads the source of a block; none where it cannot be read.
    fn look(&mut self, alloc: Global, number: u32) -> Result<Option<Source>, AllocError> {
        match read_block(alloc, self.block(number)) {
            Ok(source) => Ok(Some(source)),
            Err(error) if error.code == MEMORY => Err(AllocError),
            Err(error) => {
                self.note_unreadable(number, error.code)?;
                Ok(None)
            }
        }
    }

    /// The sources of a name, of one version where one is wanted. Of equal versions the first is
    /// there.
    pub fn fitting(
        &mut self,
        alloc: Global,
        name: &[u8],
        wanted: Option<&Version>,
    ) -> Result<Vec<SourceHere>, AllocError> {
        let mut found = Vec::new(alloc);
        for at in 0..self.names.listed(name).len() {
            let Some(number) = self.names.listed(name).get(at).copied() else {
                break;
            };
            if let Some(source) = self.look(alloc, number)? {
                let version = source.version;
                if is_wanted(&version, wanted) && !has_version(&found, &version) {
                    found.push(SourceHere { number, version })?;
                }
            }
        }
        Ok(found)
    }
}
