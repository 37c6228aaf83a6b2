//! The names of the architecture that a wish is for.

use deb_text::next_word;
use debian_index::architecture_names;
use std::alloc::{AllocError, Global};

/// Tells whether a name is one of the words of a text.
fn has_word(text: &[u8], name: &[u8]) -> bool {
    let mut rest = text;
    while let Some((word, behind)) = next_word(rest) {
        if word == name {
            return true;
        }
        rest = behind;
    }
    false
}

fn push_word(text: &mut Vec<u8>, word: &[u8]) -> Result<(), AllocError> {
    if !text.is_empty() {
        text.extend_from_slice(b" ")?;
    }
    text.extend_from_slice(word)
}

/// The words of a text, divided by single spaces.
pub fn spaced(alloc: Global, words: &[u8]) -> Result<Vec<u8>, AllocError> {
    let mut text = Vec::new(alloc);
    let mut rest = words;
    while let Some((word, behind)) = next_word(rest) {
        push_word(&mut text, word)?;
        rest = behind;
    }
    Ok(text)
}

/// The words of a wish, and behind them what matches the architecture that the first of them names
/// and is none of them.
pub fn all_names(alloc: Global, words: &[u8]) -> Result<Vec<u8>, AllocError> {
    let mut text = spaced(alloc, words)?;
    let Some((first, _)) = next_word(words) else {
        return Ok(text);
    };
    for name in &architecture_names(alloc, first)? {
        if !has_word(&text, name) {
            push_word(&mut text, name)?;
        }
    }
    Ok(text)
}
