//! The names under which sources are found.

use crate::table::NameTable;
use deb_fields::Paragraph;
use deb_stanza::Paragraphs;
use std::alloc::{AllocError, Global};

/// The name in a paragraph of a Sources index.
fn name_in<'a>(paragraph: &Paragraph<'a>) -> Option<&'a [u8]> {
    match paragraph.field(b"Package") {
        Some(name) => Some(name),
        None => paragraph.field(b"Source"),
    }
}

/// Adds the paragraphs of the block of a number, which can be read, to sources by name.
pub fn add_source_block(
    alloc: Global,
    sources: &mut NameTable,
    number: u32,
    block: &[u8],
) -> Result<(), AllocError> {
    let Ok(paragraphs) = Paragraphs::read(alloc, block) else {
        return Err(AllocError);
    };
    for at in 0..paragraphs.count() {
        if let Some(name) = name_in(&Paragraph::new(&paragraphs, at)) {
            sources.add(alloc, name, number)?;
        }
    }
    Ok(())
}
