//! Why a text is no version.

ghost use Rattle.std.specs.Prelude.{◌≡◌};

use deb_text::MEMORY;
use std::alloc::AllocError;
use thiserror::Error;

/// A part of the version is empty.
pub const EMPTY_PART: u16 = 111;

/// A part of the version has a byte that it may not have.
pub const BAD_CHARACTER: u16 = 112;

/// The epoch is over [`MAX_EPOCH`](crate::MAX_EPOCH).
pub const EPOCH_TOO_LARGE: u16 = 113;

/// The text is over [`MAX_LENGTH`](crate::MAX_LENGTH) bytes.
pub const TOO_LONG: u16 = 114;

/// Why a text was not read as a version. The numbers are part of the output format.
#[derive(Clone, Copy, Debug, PartialEq, Eq, Error)]
#[error("{code} {}", reason(.code))]
pub struct VersionError {
    pub code: u16,
}

impl From<AllocError> for VersionError {
    ghost from_gives = { λ _ error. error ≡ record { code = 900 } };

    fn from(_error: AllocError) -> VersionError {
        VersionError { code: MEMORY }
    }
}

fn reason(code: &u16) -> &'static str {
    match *code {
        EMPTY_PART => "a part of the version is empty",
        BAD_CHARACTER => "a character that this part of the version may not have",
        EPOCH_TOO_LARGE => "the epoch is over 2147483647",
        TOO_LONG => "the version is over 512 bytes",
        MEMORY => "out of memory",
        _ => "no code of a version",
    }
}
