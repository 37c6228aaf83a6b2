//! Targets that the indexes cannot have: the refusal 706.

use deb_relation::Entry;
use deb_text::push_pieces;
use explain_faults::{NearNames, is_near_or_longer};
use import_closure::{Shelf, SourceShelf};
use plan_reader::push_entry;
use stage_answers::UnmetTarget;
use stage_builds::Scope;
use stage_obstacles::{push_block_package, push_number};
use std::alloc::{AllocError, Global};

/// Tells whether a name goes on from a word behind a hyphen by more than that.
fn is_longer(word: &[u8], name: &[u8]) -> bool {
    name.len() > word.len().saturating_add(1)
        && name.starts_with(word)
        && name[word.len()..].starts_with(b"-")
}

/// Tells whether a name is near a word, by a letter or by two that are exchanged.
fn is_near(word: &[u8], name: &[u8]) -> bool {
    is_near_or_longer(word, name) && !is_longer(word, name)
}

fn is_near_entry(entry: &Entry, name: &[u8]) -> bool {
    entry
        .alternatives()
        .iter()
        .any(|atom| is_near(atom.name(), name))
}

/// Puts the first names of the target's index that are near one of an entry behind a text.
fn push_near_entry(
    text: &mut Vec<u8>,
    alloc: Global,
    entry: &Entry,
    names: &[&[u8]],
) -> Result<(), AllocError> {
    let mut near = NearNames::new(alloc);
    for name in names {
        if is_near_entry(entry, *name) {
            near.keep(*name)?;
        }
    }
    near.push(text, b"")
}

/// The same of names that are near another.
fn push_near_name(
    text: &mut Vec<u8>,
    alloc: Global,
    word: &[u8],
    names: &[&[u8]],
) -> Result<(), AllocError> {
    let mut near = NearNames::new(alloc);
    for name in names {
        if is_near(word, *name) {
            near.keep(*name)?;
        }
    }
    near.push(text, b"")
}

/// Puts the line on an entry that no package meets behind a text.
fn push_unmet(
    text: &mut Vec<u8>,
    scope: Scope,
    shelf: &Shelf,
    unmet: &UnmetTarget,
    names: &[&[u8]],
) -> Result<(), AllocError> {
    text.extend_from_slice(b"  no package of the indexes meets ")?;
    push_entry(text, &unmet.entry)?;
    if let Some(number) = unmet.needed_by {
        text.extend_from_slice(b", which ")?;
        push_block_package(text, shelf, number)?;
        text.extend_from_slice(b" needs")?;
    }
    push_near_entry(text, scope.alloc, &unmet.entry, names)?;
    text.extend_from_slice(b"\n")
}

/// Puts the line on a package whose source the indexes lack behind a text.
fn push_lacking(
    text: &mut Vec<u8>,
    scope: Scope,
    shelf: &Shelf,
    number: u32,
    names: &[&[u8]],
) -> Result<(), AllocError> {
    text.extend_from_slice(b"  no source in the Sources indexes gives ")?;
    push_block_package(text, shelf, number)?;
    if let Some(given) = shelf.given(number) {
        push_near_name(text, scope.alloc, &given.source.name, names)?;
    }
    text.extend_from_slice(b"\n")
}

/// The lines of the refusal of targets whose paragraph has this line.
pub fn unmet_lines(
    scope: Scope,
    shelf: &Shelf,
    sources: &SourceShelf,
    line: u32,
    unmet: &[UnmetTarget],
    lacking: &[u32],
) -> Result<Vec<u8>, AllocError> {
    let mut text = Vec::new(scope.alloc);
    text.extend_from_slice(b"refused 706 wish line ")?;
    push_number(&mut text, u64::from(line))?;
    text.extend_from_slice(b"\n")?;
    let names = scope.target.own.names(scope.alloc)?;
    for one in unmet {
        push_unmet(&mut text, scope, shelf, one, &names)?;
    }
    let names = sources.names.names(scope.alloc)?;
    for number in lacking {
        push_lacking(&mut text, scope, shelf, *number, &names)?;
    }
    Ok(text)
}

/// Puts a note behind a text on each entry of the archive that nothing meets.
pub fn push_unmet_archive(text: &mut Vec<u8>, entry: &Entry) -> Result<(), AllocError> {
    text.extend_from_slice(b"note: Archive: ")?;
    push_entry(text, entry)?;
    push_pieces(text, &[b" is met by nothing\n"])
}
