//! What a drive needs of a machine.

ghost use Rattle.std.specs.Prelude.{◌≡◌, ℕ, List, Option, IfOk, IfSome, Some};

use drive_journal::{JournalFile, OpenFault};
use farm_answers::Source;
use std::alloc::{AllocError, Global};
use std::io::BufRead;

/// What a drive needs of a machine, beside the files of its texts.
pub trait DriveSource: Source {
    // The bytes of the journal of a name, where they are known.
    ghost kept: { Self → List ℕ → Option (List ℕ) };

    type Answers: BufRead + Drop;

    type Journal: JournalFile + Drop;

    /// Standard input, by which the driver answers.
    fn answers(&self, alloc: Global) -> Result<Self::Answers, AllocError>;

    /// Tells whether a person may type the answers.
    fn is_typed(&self) -> bool;

    /// The nanoseconds since 1970.
    fn nanoseconds(&self) -> u64;

    /// Opens the journal of this name, makes it where it is not there, and locks it.
    ///
    /// # Errors
    ///
    /// [`OpenFault::InUse`] where another run has locked it, else [`OpenFault::Unopened`].
    fn open_journal(&self, path: &str) -> Result<Self::Journal, OpenFault>
        ensures { IfOk result (λ journal. IfSome (kept self.now path.now)
            (λ bytes. (Self.Journal.state journal).contents ≡ Some bytes)) };
}
