//! Where a text is refused, and why.

ghost use Rattle.std.specs.Prelude.{◌≡◌, ◌==◌, if◌then◌else◌};
ghost use Rattle.deb_text.specs.Answers.{fault_at, is_memory};

use std::alloc::{AllocError, AllocFailed};
use thiserror::Error;

/// The code that says that memory ran out.
pub const MEMORY: u16 = 900;

/// Where a text is refused, and why.
///
/// The file is one of [`files`](crate::files), and 0 where none is known. Lines count from 1, and
/// line 0 is the whole text.
#[derive(Clone, Copy, Debug, PartialEq, Eq, Error)]
#[error("code {code} at line {line} of file {file}")]
pub struct Fault {
    pub file: u8,
    pub line: u32,
    pub code: u16,
}

impl Fault {
    /// Memory ran out.
    pub const MEMORY: Fault = Fault {
        file: 0,
        line: 0,
        code: 900,
    };

    /// Tells the code of a part at its line, and that memory ran out at no line.
    pub fn place(file: u8, line: u32, code: u16) -> Fault
        ensures { result ≡ (if code == 900 then fault_at 0 0 900 else fault_at file line code) }
    {
        if code == MEMORY {
            Fault::MEMORY
        } else {
            Fault { file, line, code }
        }
    }

    /// Tells the same fault of this file, and that memory ran out of none.
    pub fn in_file(self, file: u8) -> Fault
        ensures { result ≡ (if is_memory self then self else fault_at file self.line self.code) }
    {
        if self == Fault::MEMORY {
            self
        } else {
            Fault { file, ..self }
        }
    }
}

impl From<AllocError> for Fault {
    ghost from_gives = { λ _ fault. fault ≡ record { file = 0; line = 0; code = 900 } };

    fn from(_error: AllocError) -> Fault {
        Fault::MEMORY
    }
}

impl<T: Drop> From<AllocFailed<T>> for Fault {
    ghost from_gives = { λ _ fault. fault ≡ record { file = 0; line = 0; code = 900 } };

    fn from(_error: AllocFailed<T>) -> Fault {
        Fault::MEMORY
    }
}
