//! The rows of a text: its lines, each with its newline.

ghost use Rattle.std.specs.Prelude.{◌≡◌, ◌<◌, ◌≤◌, ◌^◌, length};
ghost use Rattle.std.specs.List.{list_all};
ghost use Rattle.deb_text.specs.Common.{is_newline, before, is_blank_line};
ghost use Rattle.debian_index.specs.Rows.{AreFilled, IsFront, row_size};

use deb_text::{Class, all_in};
use memchr::memchr;

/// So many bytes, which are so many lines.
#[derive(Clone, Copy)]
pub struct Rows {
    pub size: usize,
    pub lines: u32,
}

/// How many bytes the first line of a text has, its newline among them.
pub fn row_size(text: &[u8]) -> usize
    ensures size { result ≡ row_size text.now }
    ensures within { result ≤ length text.now }
{
    match memchr(b'\n', text) {
        Some(end) => end + 1,
        None => text.len(),
    }
}

/// Tells whether the first line of a text is blank.
fn begins_blank(text: &[u8]) -> bool
    ensures { result ≡ is_blank_line (before is_newline text.now) }
{
    all_in(Class::Blank, &text[..row_size(text)])
}

/// The lines of a text before the first blank one that has at least so many bytes before it. Where
/// none are asked for, no line of them is blank.
pub fn rows_to_blank(text: &[u8], least: usize) -> Rows
    requires { length text.now < 2 ^ 32 }
    ensures front { IsFront text.now result.size result.lines }
    ensures filled { least ≡ 0 → AreFilled text.now result.size }
    ensures some { 0 < least → 0 < length text.now → 0 < result.size }
{
    let mut size = 0;
    let mut lines = 0;
    while size < text.len() {
        let rest = &text[size..];
        if least <= size && begins_blank(rest) {
            return Rows { size, lines };
        }
        size += row_size(rest);
        lines += 1;
    }
    Rows { size, lines }
}
