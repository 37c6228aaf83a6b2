//! Why a plan is refused: the codes, and the limits of a plan.

ghost use Rattle.std.specs.Prelude.{◌≡◌};
ghost use Rattle.std.specs.Option.{option_map};
ghost use Rattle.deb_text.specs.Answers.{fault_at, refusal_of};
ghost use Rattle.plan_reader.specs.LineErrors.{code_of_line, refusal_of_line};

use deb_text::files::PLAN;
use deb_text::{Fault, MEMORY};
use std::alloc::{AllocError, AllocFailed};

/// The number of the plan among the files of a fault.
pub const FILE: u8 = PLAN;

/// The first line is not `plan 1`.
pub const NO_PLAN: u16 = 301;

/// A line that is none of a plan's, or that stands where it may not.
pub const BAD_LINE: u16 = 302;

/// A package, a chroot or a recipe that the universe does not have.
pub const UNKNOWN_NAME: u16 = 303;

/// A name that stands twice in a set.
pub const NAME_TWICE: u16 = 304;

/// A block that is not known, or that comes later or is open.
pub const UNKNOWN_BLOCK: u16 = 305;

/// A lane, a block or a `when` that has no `end`.
pub const UNCLOSED: u16 = 306;

/// A recipe that is published twice in the plan.
pub const PUBLISHED_TWICE: u16 = 307;

/// Two lanes or two blocks of one name.
pub const NAME_TAKEN: u16 = 308;

/// More lanes or instructions than a plan may have.
pub const OVER_LIMIT: u16 = 309;

/// The most lanes of a plan.
pub const MOST_LANES: usize = 64;

/// The most instructions of all lanes of a plan, and of a block.
pub const MOST_INSTRUCTIONS: usize = 65_536;

/// Why a line is refused, apart from its place.
#[derive(Clone, Copy, Debug, PartialEq, Eq)]
pub enum LineError {
    BadLine,
    UnknownName,
    NameTwice,
    UnknownBlock,
    PublishedTwice,
    NameTaken,
    OverLimit,
    Memory,
}

impl LineError {
    const fn code(self) -> u16
        ensures { result ≡ code_of_line self }
    {
        match self {
            LineError::BadLine => BAD_LINE,
            LineError::UnknownName => UNKNOWN_NAME,
            LineError::NameTwice => NAME_TWICE,
            LineError::UnknownBlock => UNKNOWN_BLOCK,
            LineError::PublishedTwice => PUBLISHED_TWICE,
            LineError::NameTaken => NAME_TAKEN,
            LineError::OverLimit => OVER_LIMIT,
            LineError::Memory => MEMORY,
        }
    }

    /// The fault of the line with this number.
    pub fn at(self, line: u32) -> Fault
        ensures { refusal_of result ≡ option_map (λ code. fault_at FILE line code)
            (refusal_of_line self) }
    {
        Fault::place(FILE, line, self.code())
    }
}

impl From<AllocError> for LineError {
    ghost use Rattle.plan_reader.specs.declared.error.LineError.TheVariants.{Memory};

    ghost from_gives = { λ _ error. error ≡ Memory };

    fn from(_error: AllocError) -> LineError {
        LineError::Memory
    }
}

impl<T: Drop> From<AllocFailed<T>> for LineError {
    ghost use Rattle.plan_reader.specs.declared.error.LineError.TheVariants.{Memory};

    ghost from_gives = { λ _ error. error ≡ Memory };

    fn from(_error: AllocFailed<T>) -> LineError {
        LineError::Memory
    }
}
