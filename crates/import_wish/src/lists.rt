//! Lists of names.

ghost use Rattle.std.specs.Prelude.{◌≡◌, []};
ghost use Rattle.std.specs.List.{list_all, list_any};
ghost use Rattle.std.specs.Option.{option_map};
ghost use Rattle.std.specs.Str.{bytes_eq};
ghost use Rattle.deb_text.specs.Common.{Gives, is_name, lists, words};
ghost use Rattle.deb_relation.specs.View.{refusal_of};
ghost use Rattle.import_wish.specs.Lists.{bare_name, drops_at, has_twice, is_among, names_from, outputs_in, outputs_of};

use crate::error::{NO_OUTPUT, TWICE, UNKNOWN_OUTPUT};
use crate::fields::read_words;
use deb_relation::{BAD_NAME, Entry, Kind, RelationError, Relations};
use deb_text::{is_name, next_word};
use std::alloc::Global;

fn is_same(name: &[u8], other: &Vec<u8>) -> bool
    ensures { result ≡ bytes_eq name.now other.now.items }
{
    name == other.as_slice()
}

fn is_listed(name: &[u8], others: &[Vec<u8>]) -> bool
    ensures { result ≡ list_any (λ other. bytes_eq name.now other.items) others.now }
{
    others.iter().any(|other| is_same(name, other))
}

/// Tells whether a name is one of others.
pub fn is_among(name: &[u8], others: &[Vec<u8>]) -> bool
    ensures { result ≡ is_among (lists others.now) name.now }
{
    is_listed(name, others)
}

/// The name of an entry that is a name alone.
fn bare_name(entry: &Entry) -> Option<&[u8]>
    ensures { option_map (λ name. name.now) result ≡ bare_name entry.now }
{
    match entry.alternatives() {
        [atom] => {
            if atom.is_bare() && atom.relation().is_none() {
                Some(atom.name())
            } else {
                None
            }
        }
        _ => None,
    }
}

/// The names of entries, each once.
fn read_names(alloc: Global, entries: &[Entry]) -> Result<Vec<Vec<u8>>, RelationError>
    ensures { Gives refusal_of (λ names. lists names.items) result (names_from [] entries.now) }
{
    let mut names = Vec::new(alloc);
    for entry in entries {
        let Some(name) = bare_name(entry) else {
            return Err(RelationError {
                code: UNKNOWN_OUTPUT,
            });
        };
        if is_among(name, &names) {
            return Err(RelationError { code: TWICE });
        }
        names.push(Vec::from_slice(alloc, name)?)?;
    }
    Ok(names)
}

/// The names of some entries, each once.
fn read_outputs_of(alloc: Global, list: &Relations) -> Result<Vec<Vec<u8>>, RelationError>
    ensures { Gives refusal_of (λ names. lists names.items) result (outputs_of list.now) }
{
    if list.is_empty() {
        return Err(RelationError { code: NO_OUTPUT });
    }
    read_names(alloc, list.entries())
}

/// Reads a list of names that may be absent.
///
/// # Errors
///
/// Those of a Provides field; 208 where there is no name, 205 where an item is more than a name,
/// 203 where a name stands twice.
#[tactic(auto, unfolding(crate::specs::Lists::outputs_in))]
pub fn read_outputs(
    alloc: Global,
    value: Option<&[u8]>,
) -> Result<Option<Vec<Vec<u8>>>, RelationError>
    ensures { Gives refusal_of (λ names. option_map (λ ns. lists ns.items) names) result
        (outputs_in (option_map (λ v. v.now) value.entry)) }
{
    let Some(text) = value else {
        return Ok(None);
    };
    let list = Relations::parse(alloc, text, Kind::Provide)?;
    Ok(Some(read_outputs_of(alloc, &list)?))
}

/// Tells whether each word of a text is a name.
fn are_names(text: &[u8]) -> bool
    ensures { result ≡ list_all is_name (words text.now) }
{
    let mut rest = text;
    while let Some((word, behind)) = next_word(rest) {
        if !is_name(word) {
            return false;
        }
        rest = behind;
    }
    true
}

/// Tells whether a name is one of the words of a text.
fn has_word(text: &[u8], name: &[u8]) -> bool
    ensures { result ≡ is_among (words text.now) name.now }
{
    let mut rest = text;
    while let Some((word, behind)) = next_word(rest) {
        if name == word {
            return true;
        }
        rest = behind;
    }
    false
}

/// Tells whether a word stands in a text a second time.
fn has_twice(text: &[u8]) -> bool
    ensures { result ≡ has_twice (words text.now) }
{
    let mut rest = text;
    while let Some((word, behind)) = next_word(rest) {
        if has_word(behind, word) {
            return true;
        }
        rest = behind;
    }
    false
}

/// Reads words that are names, each once.
///
/// # Errors
///
/// 131 where one is no word, 121 where one is no name, 203 where one stands twice.
#[tactic(auto, unfolding(crate::specs::Lists::drops_at))]
pub fn read_drops(alloc: Global, text: &[u8]) -> Result<Vec<u8>, RelationError>
    ensures { Gives refusal_of (λ names. words names.items) result (drops_at text.now) }
{
    let names = read_words(alloc, text)?;
    if !are_names(&names) {
        return Err(RelationError { code: BAD_NAME });
    }
    if has_twice(&names) {
        return Err(RelationError { code: TWICE });
    }
    Ok(names)
}
