//! Words of a text, written one by one.

use deb_text::{next_word, push_pieces};
use std::alloc::AllocError;

/// Appends the words of a text to another, a piece before each.
pub(crate) fn push_words(text: &mut Vec<u8>, words: &[u8], piece: &[u8]) -> Result<(), AllocError> {
    let mut rest = words;
    while let Some((word, behind)) = next_word(rest) {
        push_pieces(text, &[piece, word])?;
        rest = behind;
    }
    Ok(())
}
