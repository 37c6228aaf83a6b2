//! The lines of a text.

ghost use Rattle.std.specs.Prelude.{◌≡◌, ◌-◌, take, drop, ◌+◌, ◌<◌, ◌≤◌, [], ◌∷◌, IfSome, IfNone, length};
ghost use Rattle.deb_text.specs.Lines.{lines_of, is_comment, is_blank_line};

use crate::classes::{Class, all_in};
use memchr::memchr;

/// A line without its newline. Numbers count from 1, comments and blank lines too.
#[derive(Clone, Copy)]
pub struct Line<'a> {
    pub number: u32,
    pub bytes: &'a [u8],
}

/// Takes the first line of a text, and gives the text behind its newline too.
pub fn next_line(text: &[u8]) -> Option<(&[u8], &[u8])>
    ensures none { IfNone result (lines_of text.now ≡ []) }
    ensures line { IfSome result (λ cut. lines_of text.now ≡ cut.0.now ∷ lines_of cut.1.now) }
    ensures shorter { IfSome result (λ cut. length cut.1.now < length text.now) }
    ensures within { IfSome result (λ cut. length cut.0.now + length cut.1.now ≤ length text.now) }
    ensures front { IfSome result (λ cut. cut.0.now ≡ take (length cut.0.now) text.now) }
    ensures behind { IfSome result
        (λ cut. cut.1.now ≡ drop (length text.now - length cut.1.now) text.now) }
{
    if text.is_empty() {
        return None;
    }
    // An empty line needs no search.
    if text[0] == b'\n' {
        return Some((&text[..0], &text[1..]));
    }
    match memchr(b'\n', text) {
        Some(end) => Some((&text[..end], &text[end + 1..])),
        None => Some((text, &text[text.len()..])),
    }
}

/// Tells whether a line is a comment: its own first byte is `#`.
pub fn is_comment(line: &[u8]) -> bool
    ensures { result ≡ is_comment line.now }
{
    line.first() == Some(&b'#')
}

/// Tells whether a line is empty, or of spaces and tabs alone.
pub fn is_blank_line(line: &[u8]) -> bool
    ensures { result ≡ is_blank_line line.now }
{
    all_in(Class::Space, line)
}
