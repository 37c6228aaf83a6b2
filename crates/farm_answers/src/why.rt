//! Why a file cannot be read.

ghost use Rattle.std.specs.Prelude.{◌≡◌};
ghost use Rattle.farm_answers.specs.Reasons as spec;

use std::io::ErrorKind;

/// Why a file cannot be read.
#[derive(Clone, Copy, Debug, PartialEq, Eq)]
pub enum Unreadable {
    /// There is none of its name.
    Missing,
    /// There is no leave to open it.
    Closed,
    /// It is a folder.
    Folder,
    /// It is standard input, and has more than 300,000,000 bytes.
    TooLong,
    /// For a cause that has no name here.
    Otherwise,
}

impl Unreadable {
    /// The cause of an error of this kind.
    pub fn of(kind: ErrorKind) -> Unreadable
        ensures { result ≡ spec.unreadable_of kind }
    {
        match kind {
            ErrorKind::NotFound => Unreadable::Missing,
            ErrorKind::PermissionDenied => Unreadable::Closed,
            ErrorKind::IsADirectory => Unreadable::Folder,
            _ => Unreadable::Otherwise,
        }
    }

    /// What is said of it behind the name of the file.
    pub fn words(self) -> &'static [u8]
        ensures { result.now ≡ spec.words_of self }
    {
        match self {
            Unreadable::Missing => b": No such file or directory",
            Unreadable::Closed => b": Permission denied",
            Unreadable::Folder => b": Is a directory",
            Unreadable::TooLong => b": over 300,000,000 bytes",
            Unreadable::Otherwise => b"",
        }
    }
}
