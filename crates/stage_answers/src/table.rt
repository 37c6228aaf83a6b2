//! The lines that tell of a choice.

use crate::answer::Answer;
use crate::dropped::dropped_needs;
use crate::recipe_names::listed_builds;
use crate::summary::{Summary, summary_of};
use crate::words::push_words;
use deb_relation::Entry;
use deb_text::push_pieces;
use import_closure::{Shelf, SourceShelf};
use itoa::Buffer;
use plan_reader::push_entry;
use stage_builds::{Kind, Scope, Way};
use std::alloc::AllocError;

/// Puts a number between two pieces behind a text.
fn push_count(text: &mut Vec<u8>, front: &[u8], count: usize) -> Result<(), AllocError> {
    let mut buffer = Buffer::new();
    text.extend_from_slice(front)?;
    text.extend_from_slice(buffer.format(count as u64).as_bytes())
}

fn push_sizes(text: &mut Vec<u8>, sizes: &[usize]) -> Result<(), AllocError> {
    if sizes.is_empty() {
        return text.extend_from_slice(b" none");
    }
    for size in sizes {
        push_count(text, b" ", *size)?;
    }
    Ok(())
}

fn push_whole(text: &mut Vec<u8>, summary: &Summary) -> Result<(), AllocError> {
    push_count(text, b"whole ", summary.whole)?;
    push_count(text, b" sources, ", summary.components.len())?;
    text.extend_from_slice(b" strong components:")?;
    push_sizes(text, &summary.components)?;
    push_count(text, b"; ", summary.loops)?;
    text.extend_from_slice(b" need themselves\n")
}

fn push_builds(text: &mut Vec<u8>, summary: &Summary) -> Result<(), AllocError> {
    push_count(text, b"builds ", summary.builds)?;
    push_count(text, b" staged ", summary.staged)?;
    push_count(text, b" light ", summary.light)?;
    push_count(text, b" sources ", summary.sources)?;
    push_count(text, b" again ", summary.again)?;
    push_count(text, b"\ndepth ", summary.depth)?;
    text.extend_from_slice(b"\n")
}

/// Puts the lines on the size of a choice behind a text.
fn push_summary(text: &mut Vec<u8>, summary: &Summary) -> Result<(), AllocError> {
    push_count(text, b"targets ", summary.targets)?;
    push_count(text, b" packages ", summary.packages)?;
    push_count(text, b" sources ", summary.wanted)?;
    text.extend_from_slice(b"\n")?;
    push_whole(text, summary)?;
    push_builds(text, summary)
}

fn push_dropped(text: &mut Vec<u8>, dropped: &[Entry]) -> Result<(), AllocError> {
    if dropped.is_empty() {
        return text.extend_from_slice(b" nothing");
    }
    for (at, entry) in dropped.iter().enumerate() {
        text.extend_from_slice(if at > 0 { b", " } else { b" " })?;
        push_entry(text, entry)?;
    }
    Ok(())
}

/// The words of a text between brackets.
fn push_profiles(text: &mut Vec<u8>, profiles: &[u8]) -> Result<(), AllocError> {
    let start = text.len();
    push_words(text, profiles, b" ")?;
    // the space before the first word becomes the bracket
    match text.get_mut(start) {
        Some(first) => *first = b'<',
        None => text.push(b'<')?,
    }
    text.push(b'>')?;
    Ok(())
}

/// Puts the line on a build behind a text: its kind, its source, its profiles, and the needs that they
/// take away.
fn push_way(
    text: &mut Vec<u8>,
    scope: Scope,
    sources: &SourceShelf,
    answer: &Answer,
    way: &Way,
) -> Result<(), AllocError> {
    let dropped = dropped_needs(scope, sources, &answer.ways, way)?;
    text.extend_from_slice(way.kind.word())?;
    if let Some(source) = answer.ways.sources.get(way.source as usize) {
        push_pieces(text, &[b" ", &source.name, b" "])?;
    }
    push_profiles(text, &way.profiles)?;
    text.extend_from_slice(b" drops")?;
    push_dropped(text, &dropped)?;
    text.extend_from_slice(b"\n")
}

fn push_ways(
    text: &mut Vec<u8>,
    scope: Scope,
    sources: &SourceShelf,
    answer: &Answer,
) -> Result<(), AllocError> {
    for place in &listed_builds(scope.alloc, answer)? {
        match answer.ways.ways.get(*place) {
            Some(way) if way.kind != Kind::Whole => push_way(text, scope, sources, answer, way)?,
            _ => {}
        }
    }
    Ok(())
}

/// Puts the lines that tell of a choice behind a text: how large it is, and of each build that is not
/// whole the needs that its profiles take away.
pub fn push_table(
    text: &mut Vec<u8>,
    scope: Scope,
    shelf: &Shelf,
    sources: &SourceShelf,
    answer: &Answer,
) -> Result<(), AllocError> {
    let summary = summary_of(scope, shelf, answer)?;
    push_summary(text, &summary)?;
    push_ways(text, scope, sources, answer)
}
