//! Notes on a choice.

use crate::unmet_targets::push_unmet_archive;
use deb_relation::Relations;
use deb_text::push_pieces;
use import_closure::Shelf;
use stage_answers::Answer;
use stage_builds::{GrownSource, Scope};
use stage_obstacles::push_number;
use std::alloc::AllocError;

/// Puts a note behind others on each entry of the archive that nothing meets.
fn push_archive_notes(
    notes: &mut Vec<u8>,
    scope: Scope,
    shelf: &mut Shelf,
    answer: &mut Answer,
    archive: &Relations,
) -> Result<(), AllocError> {
    for entry in archive.entries() {
        if answer.ways.stock.best_there(scope, shelf, entry)?.is_none() {
            push_unmet_archive(notes, entry)?;
        }
    }
    Ok(())
}

/// Puts a note behind others on each entry of the archive that nothing meets, if it is said what is to be
/// there at the beginning.
pub fn push_beginning_notes(
    notes: &mut Vec<u8>,
    scope: Scope,
    shelf: &mut Shelf,
    answer: &mut Answer,
) -> Result<(), AllocError> {
    match scope.asked.archive {
        Some(archive) => push_archive_notes(notes, scope, shelf, answer, archive),
        None => Ok(()),
    }
}

fn push_source_note(notes: &mut Vec<u8>, source: &GrownSource) -> Result<(), AllocError> {
    let Some(count) = source.too_many else {
        return Ok(());
    };
    push_pieces(notes, &[b"note: source ", &source.name, b" names "])?;
    push_number(notes, count as u64)?;
    notes.extend_from_slice(b" of the profiles: each alone is tried, and all\n")
}

/// Puts a note behind others on each source of which not all sets of profiles were tried.
pub fn push_source_notes(notes: &mut Vec<u8>, answer: &Answer) -> Result<(), AllocError> {
    for source in &answer.ways.sources {
        push_source_note(notes, source)?;
    }
    Ok(())
}
