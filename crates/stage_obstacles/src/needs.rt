//! The needs of builds, as their sources write them.

use deb_fields::Paragraph;
use deb_profile::{ProfileSet, strip_entry};
use deb_relation::{Entry, Relations};
use deb_stanza::Paragraphs;
use farm_model::Mode;
use import_closure::SourceShelf;
use stage_builds::{Scope, Way, Ways, block_of, need_fields};
use std::alloc::AllocError;

/// A need of a build: its field, the entry as the source has it and what is left of it, and the block of
/// the package that meets it, if one does.
#[derive(Drop)]
pub struct Need {
    pub field: &'static [u8],
    pub written: Entry,
    pub left: Entry,
    pub met_by: Option<u32>,
}

/// The names of the fields of what is needed in a mode.
fn field_name(mode: Mode, place: usize) -> &'static [u8] {
    match (mode, place) {
        (_, 0) => b"Build-Depends",
        (Mode::Full | Mode::Arch, 1) => b"Build-Depends-Arch",
        _ => b"Build-Depends-Indep",
    }
}

/// What meets the need of a place.
fn met_by(way: &Way, place: usize) -> Option<u32> {
    match way.met_by.get(place) {
        Some(met_by) => *met_by,
        None => None,
    }
}

/// Puts an entry behind other needs, if the architecture and the profiles leave some of it.
fn push_need(
    scope: Scope,
    way: &Way,
    profiles: &ProfileSet,
    field: &'static [u8],
    entry: &Entry,
    needs: &mut Vec<Need>,
) -> Result<(), AllocError> {
    let left = strip_entry(scope.alloc, entry.clone()?, scope.architectures, profiles)?;
    if left.is_empty() {
        return Ok(());
    }
    let met_by = met_by(way, needs.len());
    let written = entry.clone()?;
    needs.push(Need {
        field,
        written,
        left,
        met_by,
    })?;
    Ok(())
}

/// The needs of these fields.
fn needs_in(
    scope: Scope,
    way: &Way,
    profiles: &ProfileSet,
    fields: &[Relations],
) -> Result<Vec<Need>, AllocError> {
    let mut needs = Vec::new(scope.alloc);
    for (place, field) in fields.iter().enumerate() {
        let name = field_name(way.mode, place);
        for entry in field.entries() {
            push_need(scope, way, profiles, name, entry, &mut needs)?;
        }
    }
    Ok(needs)
}

/// The needs of a build whose source has this paragraph.
fn needs_at(scope: Scope, way: &Way, paragraph: &Paragraph) -> Result<Vec<Need>, AllocError> {
    let fields = need_fields(scope.alloc, way.mode, paragraph)?;
    match ProfileSet::parse(scope.alloc, &way.profiles) {
        Ok(profiles) => needs_in(scope, way, &profiles, &fields),
        Err(_) => Err(AllocError),
    }
}

/// The needs of a build, in the order of fields and entries.
fn needs_of(
    scope: Scope,
    sources: &SourceShelf,
    ways: &Ways,
    way: &Way,
) -> Result<Vec<Need>, AllocError> {
    let Some(source) = ways.source_here(way) else {
        return Ok(Vec::new(scope.alloc));
    };
    let Ok(paragraphs) = Paragraphs::read(scope.alloc, block_of(sources, source.number)) else {
        return Err(AllocError);
    };
    if paragraphs.count() == 0 {
        return Ok(Vec::new(scope.alloc));
    }
    needs_at(scope, way, &Paragraph::new(&paragraphs, 0))
}

/// The needs of all builds, by place.
pub fn all_needs(
    scope: Scope,
    sources: &SourceShelf,
    ways: &Ways,
) -> Result<Vec<Vec<Need>>, AllocError> {
    let mut all = Vec::new(scope.alloc);
    for way in &ways.ways {
        all.push(needs_of(scope, sources, ways, way)?)?;
    }
    Ok(all)
}
