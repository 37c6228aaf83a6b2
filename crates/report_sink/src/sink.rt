//! What takes bytes.

ghost use Rattle.std.specs.Prelude.{◌≡◌, is_err};
ghost use Rattle.report_sink.specs.Sinks.{SinkState, IsTaken};

use crate::failures::{SinkFailed, WriteFailed};

/// Takes bytes, until it fails for good.
pub trait Sink {
    // The bytes that were taken, where they are known, and whether the sink has failed.
    ghost state: { Self → SinkState };

    /// Takes the first of these bytes, and tells how many. It takes nothing and fails for good
    /// where it tells an error, or a count of 0 for bytes that are not empty, and nowhere else.
    ///
    /// # Errors
    ///
    /// [`SinkFailed`] where nothing can be taken.
    fn write(&mut self, bytes: &[u8]) -> Result<usize, SinkFailed>
        ensures { IsTaken (state self.old) (state self.new) bytes.now result };

    /// Tells whether the sink has failed.
    fn has_failed(&self) -> bool
        ensures { result ≡ (state self.now).failed };
}

/// Tells whether what was written to a sink was written whole.
///
/// # Errors
///
/// [`WriteFailed`] where the sink has failed.
pub fn whether_written<S: Sink>(out: &S) -> Result<(), WriteFailed>
    ensures { is_err result ≡ (S.state out.now).failed }
{
    if out.has_failed() {
        Err(WriteFailed)
    } else {
        Ok(())
    }
}
