//! The needs that the profiles of a build take away.

use deb_fields::Paragraph;
use deb_profile::{ProfileSet, strip_entry};
use deb_relation::{Entry, Relations};
use deb_stanza::Paragraphs;
use import_closure::SourceShelf;
use stage_builds::{Scope, Way, Ways, block_of, need_fields};
use std::alloc::AllocError;

/// An entry as these profiles leave it.
fn left_of(scope: Scope, entry: &Entry, profiles: &ProfileSet) -> Result<Entry, AllocError> {
    strip_entry(scope.alloc, entry.clone()?, scope.architectures, profiles)
}

/// Puts an entry, as these profiles that builds have in any case leave it, behind others, if they leave
/// some of it and the others do not.
fn push_dropped(
    scope: Scope,
    entry: &Entry,
    base: &ProfileSet,
    profiles: &ProfileSet,
    dropped: &mut Vec<Entry>,
) -> Result<(), AllocError> {
    let before = left_of(scope, entry, base)?;
    let after = left_of(scope, entry, profiles)?;
    if !before.is_empty() && after.is_empty() {
        dropped.push(before)?;
    }
    Ok(())
}

fn dropped_in(
    scope: Scope,
    fields: &[Relations],
    base: &ProfileSet,
    profiles: &ProfileSet,
) -> Result<Vec<Entry>, AllocError> {
    let mut dropped = Vec::new(scope.alloc);
    for field in fields {
        for entry in field.entries() {
            push_dropped(scope, entry, base, profiles, &mut dropped)?;
        }
    }
    Ok(dropped)
}

/// The profiles that a build has in any case.
fn base_of<'a>(scope: Scope<'a>, way: &Way) -> &'a ProfileSet {
    if way.own.is_some() {
        scope.asked.bases.own
    } else {
        scope.asked.bases.chosen
    }
}

/// The needs of a source's paragraph that the profiles of a build take away.
fn dropped_of(scope: Scope, way: &Way, paragraph: &Paragraph) -> Result<Vec<Entry>, AllocError> {
    let fields = need_fields(scope.alloc, way.mode, paragraph)?;
    match ProfileSet::parse(scope.alloc, &way.profiles) {
        Ok(profiles) => dropped_in(scope, &fields, base_of(scope, way), &profiles),
        Err(_) => Err(AllocError),
    }
}

/// The needs of the source of a build that its profiles take away, of those that it has under the
/// profiles that builds have in any case.
pub fn dropped_needs(
    scope: Scope,
    sources: &SourceShelf,
    ways: &Ways,
    way: &Way,
) -> Result<Vec<Entry>, AllocError> {
    let Some(source) = ways.source_here(way) else {
        return Ok(Vec::new(scope.alloc));
    };
    let Ok(paragraphs) = Paragraphs::read(scope.alloc, block_of(sources, source.number)) else {
        return Err(AllocError);
    };
    if paragraphs.count() == 0 {
        return Ok(Vec::new(scope.alloc));
    }
    dropped_of(scope, way, &Paragraph::new(&paragraphs, 0))
}
