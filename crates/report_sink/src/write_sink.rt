//! The sink over a writer of std.

ghost use Rattle.std.specs.Prelude.{◌≡◌, ◌≤◌, false, length, take};
ghost use Rattle.std.specs.Io.KnownBytes.{Appends};

use crate::failures::SinkFailed;
use crate::sink::Sink;
use std::io::{ErrorKind, Write};

/// The sink over a writer: it has failed once a write of its writer has.
#[derive(Drop)]
pub struct WriteSink<W> {
    writer: W,
    failed: bool,
}

impl<W: Write> WriteSink<W> {
    /// The sink over this writer, which has not failed yet.
    pub fn new(writer: W) -> WriteSink<W>
        ensures { ⟦<WriteSink<W> as Sink>⟧.state result
            ≡ record { contents = W.contents writer; failed = false } }
    {
        WriteSink {
            writer,
            failed: false,
        }
    }

    /// Gives the writer back.
    pub fn into_inner(self) -> W
        ensures { W.contents result ≡ (⟦<WriteSink<W> as Sink>⟧.state self).contents }
    {
        self.writer
    }
}

/// Writes once, again where the write is interrupted, and tells how many bytes were taken: none
/// where the write fails.
fn write_once<W: Write>(writer: &mut W, bytes: &[u8]) -> usize
    ensures within { result ≤ length bytes.now }
    ensures taken { Appends (W.contents writer.old) (W.contents writer.new)
        (take result bytes.now) }
{
    for _ in 0..u64::MAX {
        match writer.write(bytes) {
            Ok(count) => return count,
            Err(error) if error.kind() == ErrorKind::Interrupted => {}
            Err(_) => return 0,
        }
    }
    0
}

impl<W: Write> Sink for WriteSink<W> {
    ghost state = { λ s. record { contents = W.contents s.writer; failed = s.failed } };

    fn write(&mut self, bytes: &[u8]) -> Result<usize, SinkFailed> {
        let count = write_once(&mut self.writer, bytes);
        if count == 0 && !bytes.is_empty() {
            self.failed = true;
            return Err(SinkFailed);
        }
        Ok(count)
    }

    fn has_failed(&self) -> bool {
        self.failed
    }
}
