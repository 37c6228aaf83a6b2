//! What a journal is written to.

ghost use Rattle.std.specs.Prelude.{◌≡◌, Bool, IfOk, IfSome, false, true};
ghost use Rattle.drive_journal.specs.Resuming.{IsCut, IsLeft};

use report_sink::{Sink, SinkFailed};
use std::alloc::Global;
use std::io;

/// Where a journal goes: a sink whose entries can be kept for good.
pub trait Journal: Sink {
    // Whether all that was taken is known to stay, even if the machine goes down. Nothing is said
    // of it behind a write.
    ghost is_kept: { Self → Bool };

    /// Keeps all that was written, and tells whether that is done.
    fn keep(&mut self) -> bool
        ensures same { Self.state self.new ≡ Self.state self.old }
        ensures kept { is_kept self.new ≡ result };
}

/// A journal that stands in a file, whose lock is held. What its sink has taken is what the file
/// holds, also from earlier runs.
pub trait JournalFile: Journal {
    /// Gives all that the file holds.
    ///
    /// # Errors
    ///
    /// Where a read fails, and where memory is refused.
    fn read(&mut self, alloc: Global) -> io::Result<Vec<u8>>
        ensures bytes { IfOk result (λ text. IfSome (Self.state self.old).contents (λ bytes.
            text.items ≡ bytes)) }
        ensures same { Self.state self.new ≡ Self.state self.old };

    /// Cuts the file to so many of its first bytes, for good, and tells whether that is done. If it
    /// is not, these bytes are still there.
    fn cut(&mut self, count: usize) -> bool
        ensures cut { result ≡ true → IsCut (Self.state self.old) (Self.state self.new) count }
        ensures left { result ≡ false → IsLeft (Self.state self.old) (Self.state self.new) count }
        ensures kept { result ≡ true → Self.is_kept self.new ≡ true };

    /// Tells whether the file's name stays, even if the machine goes down.
    fn keep_name(&mut self) -> bool
        ensures same { Self.state self.new ≡ Self.state self.old }
        ensures kept { Self.is_kept self.new ≡ Self.is_kept self.old };
}

/// Why a journal is not opened.
#[derive(Clone, Copy, PartialEq, Eq)]
pub enum OpenFault {
    /// Another run goes on by it.
    InUse,
    /// It can be neither opened nor made, or its folder cannot be opened.
    Unopened,
}

/// A journal of which nothing is kept, for runs that nobody means to resume.
#[derive(Drop)]
pub struct Unkept;

impl Sink for Unkept {
    ghost use Rattle.std.specs.Prelude.{None, false};

    ghost state = { λ _. record { contents = None; failed = false } };

    fn write(&mut self, bytes: &[u8]) -> Result<usize, SinkFailed> {
        Ok(bytes.len())
    }

    fn has_failed(&self) -> bool {
        false
    }
}

impl Journal for Unkept {
    ghost use Rattle.std.specs.Prelude.{true};

    // it holds nothing that could be lost
    ghost is_kept = { λ _. true };

    fn keep(&mut self) -> bool {
        true
    }
}
