//! The rows of a Package-List, encoded for a build for a side.

ghost use Rattle.std.specs.Prelude.{◌≡◌, ◌++◌, codes, map, IfOk, OnOk};
ghost use Rattle.std.specs.List.{list_any, slice_split};
ghost use Rattle.std.specs.Option.{option_map};
ghost use Rattle.deb_text.specs.Common.{is_byte, lines_of, spaced, words};
ghost use Rattle.deb_profile.specs.Restriction.{is_among};
ghost use Rattle.debian_index.specs.Given.{is_mark, mark_in, places_of};
ghost use Rattle.cross_sources.specs.List.{for_any, row_for, row_here, row_made, rows_made};
ghost use Rattle.cross_sources.specs.Relations.{way_of};

use crate::asked::Asked;
use cross_laws::types::Side;
use cross_relations::{Sense, encoded_name};
use deb_profile::ArchNames;
use deb_text::{cut_at_first, next_line, next_part, next_word, trim};
use std::alloc::{AllocError, Global};

/// The value of the first word of a row that is a mark with a key.
fn mark<'a>(row: &'a [u8], key: &[u8]) -> Option<&'a [u8]>
    ensures { option_map (λ value. value.now) result ≡ mark_in key.now (words row.now) }
{
    let mut rest = row;
    while let Some((word, after)) = next_word(rest) {
        if let Some((name, value)) = cut_at_first(b'=', word) {
            if key == name {
                return Some(value);
            }
        }
        rest = after;
    }
    None
}

/// The architectures of a row: `any` where it has none.
fn places(row: &[u8]) -> &[u8]
    ensures { result.now ≡ places_of (words row.now) }
{
    mark(row, b"arch").unwrap_or(b"any")
}

/// Tells whether one of the places between `,` has one of these names.
fn has_place(places: &[u8], names: &ArchNames) -> bool
    ensures { result ≡ list_any (is_among names.now) (slice_split (is_byte 44) places.now) }
{
    let mut left = Some(places);
    while let Some(rest) = left {
        let (place, after) = next_part(b',', rest);
        if names.matches(place) {
            return true;
        }
        left = after;
    }
    false
}

fn is_arch_mark(word: &[u8]) -> bool
    ensures { result ≡ is_mark (codes "arch") word.now }
{
    match cut_at_first(b'=', word) {
        Some((name, _)) => b"arch".as_slice() == name,
        None => false,
    }
}

/// A word of a row, or `arch=any` in the place of its mark of architectures.
fn for_any(word: &[u8]) -> &[u8]
    ensures { result.now ≡ for_any word.now }
{
    if is_arch_mark(word) {
        return b"arch=any";
    }
    word
}

/// Puts the words of a text behind another, a space ahead of each.
fn push_words(text: &mut Vec<u8>, row: &[u8]) -> Result<(), AllocError>
    ensures { OnOk result (text.new.items ≡ text.old.items ++ spaced (words row.now)) }
{
    let mut rest = row;
    while let Some((word, after)) = next_word(rest) {
        text.push(b' ')?;
        text.extend_from_slice(word)?;
        rest = after;
    }
    Ok(())
}

/// The same for any architecture.
fn push_for_any(text: &mut Vec<u8>, row: &[u8]) -> Result<(), AllocError>
    ensures { OnOk result (text.new.items ≡ text.old.items ++ spaced (map for_any (words row.now))) }
{
    let mut rest = row;
    while let Some((word, after)) = next_word(rest) {
        text.push(b' ')?;
        text.extend_from_slice(for_any(word))?;
        rest = after;
    }
    Ok(())
}

/// Puts a row of the host behind a text, where it is not of all architectures.
fn push_host(
    alloc: Global,
    text: &mut Vec<u8>,
    of: Asked,
    places: &[u8],
    name: &[u8],
    more: &[u8],
) -> Result<(), AllocError>
    ensures { OnOk result (text.new.items ≡ text.old.items
        ++ row_for (way_of of.entry) Side.Host places.now name.now (words more.now)) }
{
    if places == b"all".as_slice() {
        return Ok(());
    }
    let name = encoded_name(alloc, of.sides, Sense::Of(Side::Host), name)?;
    text.extend_from_slice(b"\n ")?;
    text.extend_from_slice(&name)?;
    push_words(text, more)?;
    Ok(())
}

/// Puts a row of the architecture on which is built behind a text, where it holds there.
fn push_build(text: &mut Vec<u8>, of: Asked, places: &[u8], row: &[u8]) -> Result<(), AllocError>
    ensures { OnOk result (text.new.items ≡ text.old.items
        ++ row_here (way_of of.entry) places.now (words row.now)) }
{
    if places == b"all".as_slice() {
        text.push(b'\n')?;
        push_words(text, row)?;
        return Ok(());
    }
    if has_place(places, of.names) {
        text.push(b'\n')?;
        push_for_any(text, row)?;
        return Ok(());
    }
    Ok(())
}

/// Puts what a row comes to behind a text.
fn push_row(
    alloc: Global,
    text: &mut Vec<u8>,
    of: Asked,
    side: Side,
    row: &[u8],
) -> Result<(), AllocError>
    ensures { OnOk result (text.new.items ≡ text.old.items
        ++ row_made (way_of of.entry) side (words row.now)) }
{
    let Some((name, more)) = next_word(row) else {
        return Ok(());
    };
    let places = places(row);
    match side {
        Side::Host => push_host(alloc, text, of, places, name, more),
        Side::Build => push_build(text, of, places, row),
    }
}

/// The rows of a Package-List, encoded for a build for a side, a newline ahead of each.
#[tactic(auto, unfolding(crate::specs::List::rows_made))]
pub fn rows_made(alloc: Global, of: Asked, side: Side, value: &[u8]) -> Result<Vec<u8>, AllocError>
    ensures { IfOk result (λ made. made.items
        ≡ rows_made (way_of of.entry) side (lines_of value.now)) }
{
    let mut text = Vec::new(alloc);
    let mut rest = value;
    while let Some((row, behind)) = next_line(rest) {
        push_row(alloc, &mut text, of, side, row)?;
        rest = behind;
    }
    Ok(text)
}
