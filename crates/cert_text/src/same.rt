//! Whether two texts are the same, by many bytes at a time.

ghost use Rattle.std.specs.Prelude.{◌≡◌, ◌↔◌, ◌≤◌, IsTrue, length, take};

use std::simd::prelude::*;

/// How many bytes are compared at a time.
const PIECE: usize = 16;

/// Tells whether the first bytes of two texts are the same.
fn has_same_front(text: &[u8], other: &[u8]) -> bool
    requires text { PIECE ≤ length text.now }
    requires other { PIECE ≤ length other.now }
    ensures { IsTrue result ↔ (take PIECE text.now ≡ take PIECE other.now) }
{
    let (front, others) = (u8x16::from_slice(text), u8x16::from_slice(other));
    !front.simd_ne(others).any()
}

/// Tells whether two texts are the same. Most items of lists have 16 to 32 bytes: of these the
/// first 16 and the last 16 are compared.
pub fn is_same(text: &[u8], other: &[u8]) -> bool
    ensures { IsTrue result ↔ (text.now ≡ other.now) }
{
    if text.len() != other.len() {
        return false;
    }
    if text.len() < PIECE || text.len() > 2 * PIECE {
        return text == other;
    }
    let behind = text.len() - PIECE;
    has_same_front(text, other) && has_same_front(&text[behind..], &other[behind..])
}
