//! Writes that fail.

ghost use Rattle.std.specs.Prelude.{◌≡◌};

use thiserror::Error;

/// The code of [`WriteFailed`].
pub const WRITE_FAILED: u16 = 601;

/// A sink took nothing of the bytes that it was given, and has failed for good.
#[derive(Clone, Copy, Debug, PartialEq, Eq, Error)]
#[error("the sink has failed")]
pub struct SinkFailed;

/// A text was not written whole, since its sink has failed ([`WRITE_FAILED`]).
#[derive(Clone, Copy, Debug, PartialEq, Eq, Error)]
#[error("write failed")]
pub struct WriteFailed;

impl WriteFailed {
    /// The code, [`WRITE_FAILED`].
    pub fn code(self) -> u16
        ensures { result ≡ WRITE_FAILED }
    {
        WRITE_FAILED
    }
}
