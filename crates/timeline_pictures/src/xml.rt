//! Texts and lengths, as XML has them.

use deb_text::push_pieces;
use std::alloc::{AllocError, Global};
use timeline::push_count;

/// Puts words and a length behind a text, in units with one decimal.
pub(crate) fn push_length(
    text: &mut Vec<u8>,
    words: &[u8],
    tenths: u128,
) -> Result<(), AllocError> {
    push_count(text, words, tenths / 10)?;
    if tenths % 10 == 0 {
        Ok(())
    } else {
        push_count(text, b".", tenths % 10)
    }
}

/// How a byte is written. The two bytes before it tell whether it ends U+FFFE or U+FFFF, which XML
/// leaves out, as it does the bytes below the blank; U+FFFD stands in place of the one, and `?` of the
/// other.
fn escaped(before: (u8, u8), byte: &u8) -> &[u8] {
    match *byte {
        b'<' => b"&lt;",
        b'>' => b"&gt;",
        b'&' => b"&amp;",
        b'"' => b"&quot;",
        0..=31 | 127 => b"?",
        190 | 191 if before == (239, 191) => b"\xBD",
        _ => std::slice::from_ref(byte),
    }
}

/// Puts a text behind another, as it stands in XML, with U+FFFD in place of what is no UTF-8.
pub(crate) fn push_xml(alloc: Global, text: &mut Vec<u8>, words: &[u8]) -> Result<(), AllocError> {
    let words = String::from_utf8_lossy(alloc, words)?;
    let mut before = (0u8, 0u8);
    for byte in words.as_bytes() {
        push_pieces(text, &[escaped(before, byte)])?;
        before = (before.1, *byte);
    }
    Ok(())
}
