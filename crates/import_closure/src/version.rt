//! What stands before `+bN` at the end of a version, and N.

ghost use Rattle.std.specs.Prelude.{◌≡◌, ◌<◌, ◌^◌, IfOk, IfSome};
ghost use Rattle.import_closure.specs.Further.{build_number, counted_at, counted_view, further_version};

use deb_text::{cut_at_last, push_pieces, read_number};
use itoa::Buffer;
use std::alloc::{AllocError, Global};

/// A version without its `+bN`, and N: 0 where it has none.
#[derive(Clone, Copy)]
pub struct Counted<'a> {
    pub stem: &'a [u8],
    pub count: u64,
}

/// The number behind a `b`.
fn build_number(text: &[u8]) -> Option<u64>
    ensures number { result ≡ build_number text.now }
    ensures small { IfSome result (λ n. n < 10 ^ 15) }
{
    match text {
        [b'b', digits @ ..] => read_number(digits),
        _ => None,
    }
}

/// Cuts a version before the `+bN` at its end, N being 1 to 15 digits.
pub fn cut_count(version: &[u8]) -> Counted<'_>
    ensures counted { counted_view result ≡ counted_at version.now }
    ensures small { result.count < 10 ^ 15 }
{
    if let Some((stem, behind)) = cut_at_last(b'+', version) {
        if let Some(count) = build_number(behind) {
            return Counted { stem, count };
        }
    }
    Counted {
        stem: version,
        count: 0,
    }
}

/// The version of the build that has so many builds of a version before it: itself where none has.
pub fn further_version(alloc: Global, version: &[u8], before: u32) -> Result<Vec<u8>, AllocError>
    ensures { IfOk result (λ text. text.items ≡ further_version version.now before) }
{
    if before == 0 {
        return Vec::from_slice(alloc, version);
    }
    let parts = cut_count(version);
    let mut buffer = Buffer::new();
    let number = buffer.format(parts.count + u64::from(before));
    let mut text = Vec::new(alloc);
    push_pieces(&mut text, &[parts.stem, b"+b", number.as_bytes()])?;
    Ok(text)
}
