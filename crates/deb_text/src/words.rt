//! Words and names.

ghost use Rattle.std.specs.Prelude.{◌≡◌, ◌<◌, [], ◌∷◌, IfSome, IfNone, length};
ghost use Rattle.deb_text.specs.Words.{words, is_head, is_word, is_name};

use crate::classes::{Class, all_in, begins_with};
use crate::cuts::{skip_front, split_front};

/// Takes the first word of a text that is cut at blanks, and gives what stands behind it too.
pub fn next_word(text: &[u8]) -> Option<(&[u8], &[u8])>
    ensures none { IfNone result (words text.now ≡ []) }
    ensures word { IfSome result (λ cut. words text.now ≡ cut.0.now ∷ words cut.1.now) }
    ensures shorter { IfSome result (λ cut. length cut.1.now < length text.now) }
{
    let rest = skip_front(Class::Blank, text);
    if rest.is_empty() {
        return None;
    }
    Some(split_front(Class::Solid, rest))
}

/// Tells whether a line says that a text is of this kind and of version 1, as `plan 1` does: the
/// kind's name and `1` between blanks, and nothing else.
#[tactic(auto, unfolding(crate::specs::Words::is_head))]
pub fn is_head(name: &[u8], line: &[u8]) -> bool
    ensures { result ≡ is_head name.now line.now }
{
    let Some((word, rest)) = next_word(line) else {
        return false;
    };
    let Some((version, rest)) = next_word(rest) else {
        return false;
    };
    next_word(rest).is_none() && word == name && version == b"1".as_slice()
}

/// Tells whether a text is a word: bytes without blanks and without `< > ! , | ( ) [ ]`.
pub fn is_word(text: &[u8]) -> bool
    ensures { result ≡ is_word text.now }
{
    !text.is_empty() && all_in(Class::Word, text)
}

/// Tells whether a text is the name of a package, as Debian Policy 5.6.1 says: at least two
/// bytes of `a-z 0-9 + - .`, the first a letter or digit.
pub fn is_name(text: &[u8]) -> bool
    ensures { result ≡ is_name text.now }
{
    text.len() >= 2 && begins_with(Class::Lower, text) && all_in(Class::Name, text)
}
