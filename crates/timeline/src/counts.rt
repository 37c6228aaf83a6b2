//! Numbers in texts.

use deb_text::push_pieces;
use itoa::Buffer;
use std::alloc::AllocError;

/// Puts words and a number behind a text.
pub fn push_count(text: &mut Vec<u8>, words: &[u8], number: u128) -> Result<(), AllocError> {
    let mut digits = Buffer::new();
    let number = digits.format(number);
    push_pieces(text, &[words, number.as_bytes()])
}
