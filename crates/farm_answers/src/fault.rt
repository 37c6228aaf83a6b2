//! What ends a command outside of the texts.

ghost use Rattle.std.specs.Prelude.{◌≡◌};

use crate::Unreadable;
use cert_writer::CertStop;
use report_sink::WriteFailed;
use std::alloc::AllocError;

/// A file of this name that cannot be read, or standard input, and why.
#[derive(Clone, Copy, Debug, PartialEq, Eq)]
pub struct Unread<'a> {
    pub name: &'a str,
    pub why: Unreadable,
}

/// What ends a command outside of the texts.
#[derive(Clone, Copy, Debug, PartialEq, Eq)]
pub enum OutsideFault<'a> {
    /// This file cannot be read.
    CannotRead(Unread<'a>),
    /// Memory was refused, and nothing is written.
    OutOfMemory,
    /// Memory was refused behind a text of the answer that can stand alone, or in the middle of a
    /// certificate, of which a first part is written.
    CutShort,
    /// A schedule that stands in a file has a word that is no lane of the plan, and this line tells
    /// the first one.
    BadSchedule(&'a [u8]),
    /// The answer could not be written whole.
    WriteFailed,
}

impl From<AllocError> for OutsideFault<'_> {
    ghost use Rattle.farm_answers.specs.declared.fault.OutsideFault.{OutsideFault};

    ghost from_gives = { λ _ fault. fault ≡ OutsideFault.OutOfMemory };

    fn from(_error: AllocError) -> Self {
        OutsideFault::OutOfMemory
    }
}

impl From<CertStop> for OutsideFault<'_> {
    ghost use Rattle.farm_answers.specs.CertAnswers.{outside_fault_of};

    ghost from_gives = { λ stop fault. fault ≡ outside_fault_of stop };

    fn from(stop: CertStop) -> Self {
        match stop {
            CertStop::OutOfMemory => OutsideFault::OutOfMemory,
            CertStop::CutShort => OutsideFault::CutShort,
            CertStop::WriteFailed => OutsideFault::WriteFailed,
        }
    }
}

impl From<WriteFailed> for OutsideFault<'_> {
    ghost use Rattle.farm_answers.specs.declared.fault.OutsideFault.{OutsideFault};

    ghost from_gives = { λ _ fault. fault ≡ OutsideFault.WriteFailed };

    fn from(_error: WriteFailed) -> Self {
        OutsideFault::WriteFailed
    }
}
