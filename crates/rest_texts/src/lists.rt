//! Lists of items in texts.

use crate::stop::push_item;
use deb_relation::{Entry, Kind, Relations};
use deb_text::{next_word, push_pieces};
use farm_universe::pinned;
use rest_farm::{Item, Items, Name};
use std::alloc::{AllocError, Global};

fn push_pinned(alloc: Global, items: &mut Vec<Item>, entry: &Entry) -> Result<(), AllocError> {
    if let Some((name, version)) = pinned(entry) {
        let name = Vec::from_slice(alloc, name)?;
        items.push(Item::new(name, version.to_version(alloc)?))?;
    }
    Ok(())
}

/// The items of a list; none of what is no list, which is left to the reader of the texts.
pub fn listed(alloc: Global, value: Option<&[u8]>) -> Result<Vec<Item>, AllocError> {
    let mut items = Vec::new(alloc);
    let Some(text) = value else {
        return Ok(items);
    };
    if Relations::judge(text, Kind::Provide).is_err() {
        return Ok(items);
    }
    let Ok(entries) = Relations::parse(alloc, text, Kind::Provide) else {
        return Err(AllocError);
    };
    for entry in entries.entries() {
        push_pinned(alloc, &mut items, entry)?;
    }
    Ok(items)
}

/// The items of a list, each once.
pub fn distinct(alloc: Global, list: Vec<Item>) -> Result<Items, AllocError> {
    let all = Items::of(alloc, list)?;
    let mut kept = Vec::new(alloc);
    for place in 0..all.list().len() {
        let item = &all.list()[place];
        if all.first(item) == Some(place) {
            kept.push(item.clone()?)?;
        }
    }
    Items::of(alloc, kept)
}

/// Puts copies of items behind others.
pub fn push_items(list: &mut Vec<Item>, items: &[Item]) -> Result<(), AllocError> {
    for item in items {
        list.push(item.clone()?)?;
    }
    Ok(())
}

/// Puts a field with a list of items behind a text, one item a line.
pub fn push_list(text: &mut Vec<u8>, field: &[u8], items: &[Item]) -> Result<(), AllocError> {
    push_pieces(text, &[field, b":"])?;
    for place in 0..items.len() {
        if place > 0 {
            text.extend_from_slice(b",\n")?;
        }
        text.extend_from_slice(b" ")?;
        push_item(text, &items[place])?;
    }
    text.extend_from_slice(b"\n")
}

/// The same, where there is an item.
pub fn push_some(text: &mut Vec<u8>, field: &[u8], items: &[Item]) -> Result<(), AllocError> {
    if items.is_empty() {
        return Ok(());
    }
    push_list(text, field, items)
}

/// Tells whether a word is among those of a text.
pub fn has_word(text: &[u8], word: &[u8]) -> bool {
    let mut rest = text;
    while let Some((other, behind)) = next_word(rest) {
        if other == word {
            return true;
        }
        rest = behind;
    }
    false
}

/// Tells whether all words of a text are among those of another.
pub fn has_words(text: &[u8], words: &[u8]) -> bool {
    let mut rest = words;
    while let Some((word, behind)) = next_word(rest) {
        if !has_word(text, word) {
            return false;
        }
        rest = behind;
    }
    true
}

fn has_name(names: &[Name], name: &[u8]) -> bool {
    names.iter().any(|other| other.bytes() == name)
}

/// Puts a name behind others, unless it is among them.
pub fn push_name(alloc: Global, names: &mut Vec<Name>, name: &[u8]) -> Result<(), AllocError> {
    if !has_name(names, name) {
        names.push(Name::of(alloc, name)?)?;
    }
    Ok(())
}

/// The words of a text as names, each once.
pub fn names_in(alloc: Global, value: Option<&[u8]>) -> Result<Vec<Name>, AllocError> {
    let mut names = Vec::new(alloc);
    let Some(text) = value else {
        return Ok(names);
    };
    let mut rest = text;
    while let Some((word, behind)) = next_word(rest) {
        push_name(alloc, &mut names, word)?;
        rest = behind;
    }
    Ok(names)
}
