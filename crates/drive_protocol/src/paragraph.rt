//! The words of one recipe.

ghost use Rattle.std.specs.Prelude.{◌≡◌, ◌<◌, ◌++◌, IfOk, OnOk, length};
ghost use Rattle.std.specs.Option.{option_map};
ghost use Rattle.deb_stanza.specs.Stanza.{paragraph_at};
ghost use Rattle.deb_text.specs.Words.{spaced, words};
ghost use Rattle.drive_protocol.specs.RecipeWords as spec;

use deb_relation::{Kind, Relations};
use deb_stanza::Paragraphs;
use deb_text::{MEMORY, next_word, push_pieces, read_number};
use farm_universe::pinned;
use itoa::Buffer;
use std::alloc::{AllocError, Global};

/// Puts the name and the version of the one item of a list behind a text.
fn push_pinned(text: &mut Vec<u8>, list: &Relations) -> Result<(), AllocError>
    ensures { OnOk result (text.new.items ≡ text.old.items ++ spaced (spec.of_one list.now)) }
{
    let [entry] = list.entries() else {
        return Ok(());
    };
    match pinned(entry) {
        Some((name, version)) => push_pieces(text, &[b" ", name, b" ", version.text()]),
        None => Ok(()),
    }
}

/// Puts the name and the version of a source behind a text.
fn push_source(alloc: Global, text: &mut Vec<u8>, value: Option<&[u8]>) -> Result<(), AllocError>
    ensures { OnOk result (text.new.items ≡ text.old.items
        ++ spaced (spec.source_words (option_map (λ v. v.now) value.entry))) }
{
    let Some(value) = value else {
        return Ok(());
    };
    match Relations::parse(alloc, value, Kind::Provide) {
        Ok(list) => push_pinned(text, &list),
        Err(error) if error.code == MEMORY => Err(AllocError),
        Err(_) => Ok(()),
    }
}

/// The number of a field.
fn number_in(value: Option<&[u8]>) -> u64
    ensures { result ≡ spec.number_in (option_map (λ v. v.now) value.entry) }
{
    match value {
        Some(text) => read_number(text).unwrap_or(0),
        None => 0,
    }
}

/// Puts the mode, the steps and the scratch space behind a text.
fn push_measures(
    text: &mut Vec<u8>,
    paragraphs: &Paragraphs,
    place: usize,
) -> Result<(), AllocError>
    requires { place < length paragraphs.now }
    ensures { OnOk result (text.new.items ≡ text.old.items
        ++ spaced (spec.measure_words (paragraph_at paragraphs.now place))) }
{
    let mode = paragraphs.field(place, b"Mode").unwrap_or(b"full");
    let (mut steps, mut scratch) = (Buffer::new(), Buffer::new());
    let steps = steps.format(number_in(paragraphs.field(place, b"Steps")));
    let scratch = scratch.format(number_in(paragraphs.field(place, b"Scratch")));
    let (steps, scratch) = (steps.as_bytes(), scratch.as_bytes());
    push_pieces(text, &[b" ", mode, b" ", steps, b" ", scratch])
}

/// Puts the words of a value behind a text.
fn push_words(text: &mut Vec<u8>, value: &[u8]) -> Result<(), AllocError>
    ensures { OnOk result (text.new.items ≡ text.old.items ++ spaced (words value.now)) }
{
    let mut rest = value;
    while let Some((word, behind)) = next_word(rest) {
        push_pieces(text, &[b" ", word])?;
        rest = behind;
    }
    Ok(())
}

/// Gives the words of a recipe's paragraph, a space before each.
pub fn words_at(alloc: Global, paragraphs: &Paragraphs, place: usize) -> Result<Vec<u8>, AllocError>
    requires { place < length paragraphs.now }
    ensures { IfOk result
        (λ text. text.items ≡ spec.recipe_words (paragraph_at paragraphs.now place)) }
{
    let mut text = Vec::new(alloc);
    push_source(alloc, &mut text, paragraphs.field(place, b"Source"))?;
    push_measures(&mut text, paragraphs, place)?;
    push_words(
        &mut text,
        paragraphs.field(place, b"Profiles").unwrap_or(b""),
    )?;
    Ok(text)
}
