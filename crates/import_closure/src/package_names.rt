//! The names under which packages are found.

use crate::table::NameTable;
use crate::{Given, MOST_ENTRIES};
use deb_fields::{Paragraph, or_text};
use deb_profile::{ArchNames, ProfileSet, reduce_text};
use deb_relation::{Kind, RelationError, Relations};
use deb_stanza::Paragraphs;
use deb_text::{cut_at_first, trim};
use std::alloc::{AllocError, Global};
use std::collections::BTreeSet;

/// What a package provides. A field that cannot be read provides nothing: its paragraph cannot be
/// read either.
fn provided(
    alloc: Global,
    names: &ArchNames,
    value: &[u8],
) -> Result<Option<Relations>, AllocError> {
    let none = ProfileSet::none(alloc);
    match reduce_text(alloc, value, Kind::Provide, names, &none, MOST_ENTRIES) {
        Ok(list) => Ok(Some(list)),
        Err(error) if error == RelationError::from(AllocError) => Err(AllocError),
        Err(_) => Ok(None),
    }
}

/// The name of the source of a package of this name.
fn source_name<'a>(name: &'a [u8], value: Option<&'a [u8]>) -> &'a [u8] {
    let text = or_text(value, name);
    match cut_at_first(b'(', text) {
        Some((front, _)) => trim(front),
        None => text,
    }
}

/// Numbers of packages by their names, by what they provide and by their sources, and the names of
/// those that are Essential.
#[derive(Drop)]
pub struct PackageNames {
    pub own: NameTable,
    pub provided: NameTable,
    pub made: NameTable,
    pub essential: BTreeSet<Vec<u8>>,
}

impl PackageNames {
    /// The names of no package.
    pub fn new(alloc: Global) -> PackageNames {
        PackageNames {
            own: NameTable::new(alloc),
            provided: NameTable::new(alloc),
            made: NameTable::new(alloc),
            essential: BTreeSet::new(alloc),
        }
    }

    /// Lists a number under all names of a field.
    fn add_provided(
        &mut self,
        alloc: Global,
        number: u32,
        list: &Relations,
    ) -> Result<(), AllocError> {
        for entry in list.entries() {
            for atom in entry.alternatives() {
                self.provided.add(alloc, atom.name(), number)?;
            }
        }
        Ok(())
    }

    /// Adds a package that was read, by its name and by what it provides.
    pub fn add_given(
        &mut self,
        alloc: Global,
        number: u32,
        given: &Given,
    ) -> Result<(), AllocError> {
        self.own.add(alloc, &given.name, number)?;
        self.add_provided(alloc, number, &given.relations.provides)
    }

    fn add_essential(
        &mut self,
        alloc: Global,
        name: &[u8],
        value: Option<&[u8]>,
    ) -> Result<(), AllocError> {
        if value == Some(b"yes".as_slice()) {
            self.essential.insert(Vec::from_slice(alloc, name)?)?;
        }
        Ok(())
    }

    /// Adds a paragraph that the block of a number has.
    fn add(
        &mut self,
        alloc: Global,
        names: &ArchNames,
        number: u32,
        paragraph: &Paragraph,
    ) -> Result<(), AllocError> {
        let Some(name) = paragraph.field(b"Package") else {
            return Ok(());
        };
        self.own.add(alloc, name, number)?;
        let source = source_name(name, paragraph.field(b"Source"));
        self.made.add(alloc, source, number)?;
        self.add_essential(alloc, name, paragraph.field(b"Essential"))?;
        let Some(value) = paragraph.field(b"Provides") else {
            return Ok(());
        };
        match provided(alloc, names, value)? {
            Some(list) => self.add_provided(alloc, number, &list),
            None => Ok(()),
        }
    }

    /// Adds the paragraphs of the block of a number, which can be read.
    pub fn add_block(
        &mut self,
        alloc: Global,
        names: &ArchNames,
        number: u32,
        block: &[u8],
    ) -> Result<(), AllocError> {
        let Ok(paragraphs) = Paragraphs::read(alloc, block) else {
            return Err(AllocError);
        };
        for at in 0..paragraphs.count() {
            self.add(alloc, names, number, &Paragraph::new(&paragraphs, at))?;
        }
        Ok(())
    }
}
