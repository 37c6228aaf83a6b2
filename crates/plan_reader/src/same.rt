//! Texts that are the same.

ghost use Rattle.std.specs.Prelude.{◌≡◌};
ghost use Rattle.std.specs.Str.{bytes_eq};

/// Tells whether two texts are the same. It goes from byte to byte, which is quick for words and
/// lines.
pub fn is_same(text: &[u8], other: &[u8]) -> bool
    ensures { result ≡ bytes_eq text.now other.now }
{
    text.len() == other.len() && text.iter().eq(other.iter())
}
