//! The note on packages of another architecture than that of the wish.

use deb_profile::ArchNames;
use deb_stanza::Paragraphs;
use deb_text::push_pieces;
use import_closure::{Shelf, Variant};
use import_farm::{Told, push_number, push_package};
use std::alloc::{AllocError, Global};

/// Tells whether the package of a block is of an architecture that has none of these names.
fn is_foreign(alloc: Global, names: &ArchNames, block: &[u8]) -> Result<bool, AllocError> {
    let Ok(paragraphs) = Paragraphs::read(alloc, block) else {
        return Err(AllocError);
    };
    if paragraphs.count() == 0 {
        return Ok(false);
    }
    match paragraphs.field(0, b"Architecture") {
        Some(value) => Ok(value != b"all".as_slice() && !names.matches(value)),
        None => Ok(false),
    }
}

/// How many packages are of another architecture, and the first of them.
#[derive(Drop)]
struct Foreign {
    count: u64,
    first: Vec<u8>,
}

impl Foreign {
    fn add(&mut self, name: &[u8], version: &[u8]) -> Result<(), AllocError> {
        if self.count == 0 {
            push_package(&mut self.first, name, version)?;
        }
        self.count = self.count.saturating_add(1);
        Ok(())
    }

    /// Adds those of a name.
    fn add_all(
        &mut self,
        alloc: Global,
        shelf: &Shelf,
        names: &ArchNames,
        name: &[u8],
        variants: &[Variant],
    ) -> Result<(), AllocError> {
        for variant in variants {
            if is_foreign(alloc, names, shelf.block(variant.number))? {
                self.add(name, variant.version.text())?;
            }
        }
        Ok(())
    }
}

/// The note on the packages that are taken and are of an architecture that the wish does not name:
/// nothing where there are none.
pub fn foreign_note(alloc: Global, shelf: &Shelf, told: Told) -> Result<Vec<u8>, AllocError> {
    let mut foreign = Foreign {
        count: 0,
        first: Vec::new(alloc),
    };
    for (name, variants) in &told.taken.numbered.variants.by_name {
        foreign.add_all(alloc, shelf, told.read.of.architectures, name, variants)?;
    }
    let mut text = Vec::new(alloc);
    if foreign.count > 0 {
        text.extend_from_slice(b"note: ")?;
        push_number(&mut text, foreign.count)?;
        push_pieces(
            &mut text,
            &[
                b" packages have an architecture that the wish does not name, first ",
                &foreign.first,
                b"\n",
            ],
        )?;
    }
    Ok(text)
}
