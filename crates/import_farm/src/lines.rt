//! Pieces of lines.

use deb_text::push_pieces;
use itoa::Buffer;
use std::alloc::AllocError;

/// Puts a number behind a text.
pub fn push_number(text: &mut Vec<u8>, number: u64) -> Result<(), AllocError> {
    let mut buffer = Buffer::new();
    text.extend_from_slice(buffer.format(number).as_bytes())
}

/// Puts a package with its version behind a text.
pub fn push_package(text: &mut Vec<u8>, name: &[u8], version: &[u8]) -> Result<(), AllocError> {
    push_pieces(text, &[name, b" (= ", version, b")"])
}
