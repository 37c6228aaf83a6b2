//! What recipes need, as their sources write it.

use crate::about::About;
use deb_profile::{ProfileSet, reduce_text};
use deb_relation::{Kind, RelationError, Relations, next_entry};
use deb_stanza::Paragraphs;
use deb_text::{Fault, MEMORY, next_word, push_pieces};
use deb_version::{Version, VersionRef};
use farm_universe::pinned;
use std::alloc::{AllocError, Global};

/// The fields of what a build in a mode needs, in the order in which they are read.
fn fields_of(mode: Option<&[u8]>) -> &'static [&'static [u8]] {
    let mode = mode.unwrap_or(b"full");
    if mode == b"arch".as_slice() {
        &[b"Build-Depends", b"Build-Depends-Arch"]
    } else if mode == b"indep".as_slice() {
        &[b"Build-Depends", b"Build-Depends-Indep"]
    } else {
        &[
            b"Build-Depends",
            b"Build-Depends-Arch",
            b"Build-Depends-Indep",
        ]
    }
}

/// A recipe, its paragraph of the farm text, and that of its source.
#[derive(Clone, Copy)]
struct Origin<'a> {
    farm: &'a Paragraphs,
    recipe: usize,
    sources: &'a Paragraphs,
    source: usize,
}

/// The paragraphs of a text; nothing where it has a fault.
fn paragraphs_of(alloc: Global, text: &[u8]) -> Result<Option<Paragraphs>, AllocError> {
    match Paragraphs::read(alloc, text) {
        Ok(paragraphs) => Ok(Some(paragraphs)),
        Err(Fault::MEMORY) => Err(AllocError),
        Err(_) => Ok(None),
    }
}

/// What was read of a field; nothing where it has a fault.
fn unless_wrong<T: Drop>(read: Result<T, RelationError>) -> Result<Option<T>, AllocError> {
    match read {
        Ok(value) => Ok(Some(value)),
        Err(error) if error.code == MEMORY => Err(AllocError),
        Err(_) => Ok(None),
    }
}

/// The value of a field of the paragraph of a number.
fn field_of<'a>(paragraphs: &'a Paragraphs, place: usize, name: &[u8]) -> Option<&'a [u8]> {
    if place < paragraphs.count() {
        paragraphs.field(place, name)
    } else {
        None
    }
}

/// The paragraph of the recipe of a number: the first paragraph is none of a recipe.
fn recipe_place(farm: &Paragraphs, recipe: usize) -> Option<usize> {
    let mut before = recipe;
    for place in 1..farm.count() {
        if farm.field(place, b"Recipe").is_some() {
            if before == 0 {
                return Some(place);
            }
            before -= 1;
        }
    }
    None
}

/// Tells whether a paragraph is that of a source.
fn is_source(
    alloc: Global,
    sources: &Paragraphs,
    place: usize,
    name: &[u8],
    version: &VersionRef<'_>,
) -> Result<bool, AllocError> {
    let named = field_of(sources, place, b"Package").or(field_of(sources, place, b"Source"));
    if named != Some(name) {
        return Ok(false);
    }
    let Some(text) = field_of(sources, place, b"Version") else {
        return Ok(false);
    };
    match Version::parse(alloc, text) {
        Ok(own) => Ok(version.compare(&own.view()).is_eq()),
        Err(error) if error.code == MEMORY => Err(AllocError),
        Err(_) => Ok(false),
    }
}

/// The paragraph of the source that a text names.
fn source_place(
    alloc: Global,
    sources: &Paragraphs,
    text: &[u8],
) -> Result<Option<usize>, AllocError> {
    let Some(list) = unless_wrong(Relations::parse(alloc, text, Kind::Provide))? else {
        return Ok(None);
    };
    let [entry] = list.entries() else {
        return Ok(None);
    };
    let Some((name, version)) = pinned(entry) else {
        return Ok(None);
    };
    for place in 0..sources.count() {
        if is_source(alloc, sources, place, name, &version)? {
            return Ok(Some(place));
        }
    }
    Ok(None)
}

/// The profiles under which a recipe is built.
fn profiles_of(alloc: Global, text: Option<&[u8]>) -> Result<ProfileSet, AllocError> {
    match text {
        Some(text) => match unless_wrong(ProfileSet::parse(alloc, text))? {
            Some(profiles) => Ok(profiles),
            None => Ok(ProfileSet::none(alloc)),
        },
        None => Ok(ProfileSet::none(alloc)),
    }
}

/// Puts a field and an entry of it behind a text, with one space between words.
fn push_written(text: &mut Vec<u8>, field: &[u8], entry: &[u8]) -> Result<(), AllocError> {
    push_pieces(text, &[field, b":"])?;
    let mut rest = entry;
    for _ in 0..entry.len() {
        let Some((word, behind)) = next_word(rest) else {
            break;
        };
        push_pieces(text, &[b" ", word])?;
        rest = behind;
    }
    Ok(())
}

/// Tells whether something is left of an entry.
fn is_left(about: &About<'_>, entry: &[u8], profiles: &ProfileSet) -> Result<bool, AllocError> {
    let names = about.universe.arch_names();
    let read = reduce_text(about.alloc, entry, Kind::BuildNeed, names, profiles, 1);
    match unless_wrong(read)? {
        Some(left) => Ok(!left.is_empty()),
        None => Ok(false),
    }
}

/// Passes over entries of a field of which something is left, so many as are to come before. Gives
/// the entry behind these.
fn entry_behind<'t>(
    about: &About<'_>,
    value: &'t [u8],
    profiles: &ProfileSet,
    before: &mut usize,
) -> Result<Option<&'t [u8]>, AllocError> {
    let mut left = Some(value);
    for _ in 0..=value.len() {
        let Some((entry, behind)) = next_entry(left) else {
            break;
        };
        if is_left(about, entry, profiles)? {
            if *before == 0 {
                return Ok(Some(entry));
            }
            *before -= 1;
        }
        left = behind;
    }
    Ok(None)
}

/// Puts the need of a number, of those of which something is left, behind a text as the source
/// writes it. Tells whether there is one.
fn push_of(
    text: &mut Vec<u8>,
    about: &About<'_>,
    origin: &Origin<'_>,
    number: usize,
) -> Result<bool, AllocError> {
    let profiles = field_of(origin.farm, origin.recipe, b"Profiles");
    let profiles = profiles_of(about.alloc, profiles)?;
    let mut before = number;
    for field in fields_of(field_of(origin.farm, origin.recipe, b"Mode")) {
        let Some(value) = field_of(origin.sources, origin.source, field) else {
            continue;
        };
        if let Some(entry) = entry_behind(about, value, &profiles, &mut before)? {
            push_written(text, field, entry)?;
            return Ok(true);
        }
    }
    Ok(false)
}

/// The same, of a farm text and a sources text.
fn push_from(
    text: &mut Vec<u8>,
    about: &About<'_>,
    recipe: usize,
    number: usize,
) -> Result<bool, AllocError> {
    let Some(farm) = paragraphs_of(about.alloc, about.texts.farm)? else {
        return Ok(false);
    };
    let Some(sources) = paragraphs_of(about.alloc, about.texts.sources)? else {
        return Ok(false);
    };
    let Some(place) = recipe_place(&farm, recipe) else {
        return Ok(false);
    };
    let Some(named) = field_of(&farm, place, b"Source") else {
        return Ok(false);
    };
    let Some(source) = source_place(about.alloc, &sources, named)? else {
        return Ok(false);
    };
    let origin = Origin {
        farm: &farm,
        recipe: place,
        sources: &sources,
        source,
    };
    push_of(text, about, &origin, number)
}

/// Puts the line of a need of a recipe behind a text, as the source writes it, with its field and
/// its restrictions.
pub(crate) fn push_need(
    text: &mut Vec<u8>,
    about: &About<'_>,
    recipe: usize,
    number: usize,
) -> Result<(), AllocError> {
    push_pieces(text, &[b"  recipe ", about.recipe_name(recipe), b" "])?;
    let _ = push_from(text, about, recipe, number)?;
    push_pieces(text, &[b"\n"])
}
