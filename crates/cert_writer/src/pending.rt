//! A text on its way to a sink.

ghost use Rattle.std.specs.Prelude.{◌≡◌, [], false, OnOk};
ghost use Rattle.cert_writer.specs.Sending.{IsSentOn, IsOutOfMemory};

use crate::stop::CertStop;
use report_sink::{Sink, write_text};
use std::alloc::Global;

/// How many bytes are put together before they are written.
pub const PIECE: usize = 65_536;

/// The end of a text on its way to a sink, which is not written yet, and how many bytes are, or
/// the greatest number where they are more.
#[derive(Drop)]
pub struct Pending {
    pub text: Vec<u8>,
    pub sent: u64,
}

impl Pending {
    /// Nothing is on its way.
    pub fn new(alloc: Global) -> Pending
        ensures text { result.text.items ≡ [] }
        ensures sent { result.sent ≡ 0 }
    {
        Pending {
            text: Vec::new(alloc),
            sent: 0,
        }
    }

    /// Writes what is not written yet.
    ///
    /// # Errors
    ///
    /// [`CertStop::WriteFailed`] where the sink fails, with a first part of it.
    pub fn send<S: Sink>(&mut self, out: &mut S) -> Result<(), CertStop>
        requires { (S.state out.old).failed ≡ false }
        ensures sent { IsSentOn (S.state out.old) (S.state out.new) self.old self.new [] result }
        ensures all { OnOk result (self.new.text.items ≡ []) }
    {
        if self.text.is_empty() {
            return Ok(());
        }
        write_text(out, &self.text)?;
        self.sent = self.sent.saturating_add(self.text.len() as u64);
        self.text.clear();
        Ok(())
    }

    /// Writes what is not written yet, once it is a whole piece.
    ///
    /// # Errors
    ///
    /// As those of [`send`](Pending::send).
    pub fn send_pieces<S: Sink>(&mut self, out: &mut S) -> Result<(), CertStop>
        requires { (S.state out.old).failed ≡ false }
        ensures { IsSentOn (S.state out.old) (S.state out.new) self.old self.new [] result }
    {
        if self.text.len() < PIECE {
            return Ok(());
        }
        self.send(out)
    }

    /// How many bytes are written, or the greatest number where they are more.
    pub fn bytes_sent(&self) -> u64
        ensures { result ≡ self.now.sent }
    {
        self.sent
    }

    /// Memory was refused: tells whether something is written.
    pub fn no_memory(&self) -> CertStop
        ensures { IsOutOfMemory self.now.sent result }
    {
        if self.sent == 0 {
            CertStop::OutOfMemory
        } else {
            CertStop::CutShort
        }
    }
}
