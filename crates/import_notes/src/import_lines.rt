//! The lines of an import.

use crate::counts::{over_lines, push_counts};
use crate::exact_notes::exact_notes;
use crate::notes::push_notes;
use crate::refusals::{recipe_lines, refusal_lines};
use crate::shares::push_shares;
use crate::source_hints::Indexes;
use crate::wish_notes::push_wish_notes;
use import_closure::{Shelf, SourceShelf};
use import_farm::{COUNTS, Count, Farm, Inputs, Read, Refusal, RefusedRecipe, Tell, Told};
use std::alloc::{AllocError, Global};

/// Puts the notes on the wish behind a text; of one that was made by a choice those on the wish that left
/// it, and on the choice.
fn push_notes_ahead(alloc: Global, lines: &mut Vec<u8>, told: Told) -> Result<(), AllocError> {
    match told.read.choice {
        Some(choice) => {
            push_wish_notes(alloc, lines, choice.text, choice.paragraphs)?;
            lines.extend_from_slice(choice.notes)
        }
        None => push_wish_notes(alloc, lines, told.read.text, told.read.paragraphs),
    }
}

/// The lines of an import.
#[derive(Clone, Copy)]
pub struct ImportLines;

impl Tell for ImportLines {
    fn farm_lines(
        alloc: Global,
        shelf: &mut Shelf,
        sources: &SourceShelf,
        told: Told,
        farm: Farm,
    ) -> Result<Vec<u8>, AllocError> {
        let mut lines = Vec::new(alloc);
        push_counts(&mut lines, farm.counts)?;
        push_notes_ahead(alloc, &mut lines, told)?;
        push_notes(alloc, &mut lines, shelf, sources, told, farm)?;
        let exact = exact_notes(alloc, shelf, told)?;
        lines.extend_from_slice(&exact)?;
        Ok(lines)
    }

    fn recipe_lines(
        alloc: Global,
        shelf: &mut Shelf,
        sources: &SourceShelf,
        read: Read,
        refused: &[RefusedRecipe],
    ) -> Result<Vec<u8>, AllocError> {
        let mut indexes = Indexes {
            shelf,
            packages: &read.of.packages.target,
            sources: &sources.names,
        };
        recipe_lines(alloc, refused, &mut indexes)
    }

    fn limit_lines(
        alloc: Global,
        shelf: &mut Shelf,
        told: Told,
        counts: &[Count; COUNTS],
    ) -> Result<Vec<u8>, AllocError> {
        let mut lines = over_lines(alloc, counts)?;
        push_shares(alloc, &mut lines, shelf, told)?;
        Ok(lines)
    }

    fn refusal_lines(
        alloc: Global,
        inputs: Inputs,
        refusal: &Refusal,
    ) -> Result<Vec<u8>, AllocError> {
        refusal_lines(alloc, inputs, refusal)
    }
}
