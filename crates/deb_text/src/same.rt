//! Whether two texts are the same.

ghost use Rattle.std.specs.Prelude.{◌≡◌, ◌↔◌, IsTrue};

/// Tells whether two texts are the same. Most texts here are of few bytes, so they are compared
/// byte by byte.
pub fn is_same_text(text: &[u8], other: &[u8]) -> bool
    ensures { IsTrue result ↔ (text.now ≡ other.now) }
{
    text.len() == other.len() && text.iter().zip(other).all(|(a, b)| *a == *b)
}
