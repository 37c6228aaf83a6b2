//! Why a text is no relation field.

ghost use Rattle.std.specs.Prelude.{◌≡◌};

use deb_text::MEMORY;
use std::alloc::{AllocError, AllocFailed};
use thiserror::Error;

/// No name, an empty qualifier, or a byte that no later part begins with.
pub const BAD_NAME: u16 = 121;

/// What follows `(` is none of the five operators.
pub const BAD_OPERATOR: u16 = 122;

/// What follows the operator is no version.
pub const BAD_VERSION: u16 = 123;

/// No architecture, one that is no word, or some with `!` and some without.
pub const BAD_ARCHITECTURES: u16 = 124;

/// A bracket is not closed.
pub const NOT_CLOSED: u16 = 125;

/// Alternatives, in a kind of field that has none.
pub const ALTERNATIVES: u16 = 126;

/// A list of architectures or profiles, in a kind of field that has none.
pub const RESTRICTION: u16 = 127;

/// Another operator than `=` in a Provides field.
pub const NOT_EQUAL: u16 = 128;

/// An alternative of blanks alone.
pub const NO_ALTERNATIVE: u16 = 129;

/// No profile, or one that is no word.
pub const BAD_PROFILES: u16 = 130;

/// A word with a byte that it may not have, in a list of words alone.
pub const BAD_WORD: u16 = 131;

/// Why a text was not read. The numbers are part of the output format. Under [`MEMORY`] the text
/// may be a relation field.
#[derive(Clone, Copy, Debug, PartialEq, Eq, Error)]
#[error("{code} {}", reason(.code))]
pub struct RelationError {
    pub code: u16,
}

impl From<AllocError> for RelationError {
    ghost from_gives = { λ _ error. error ≡ record { code = 900 } };

    fn from(_error: AllocError) -> RelationError {
        RelationError { code: MEMORY }
    }
}

impl<T: Drop> From<AllocFailed<T>> for RelationError {
    ghost from_gives = { λ _ error. error ≡ record { code = 900 } };

    fn from(_error: AllocFailed<T>) -> RelationError {
        RelationError { code: MEMORY }
    }
}

fn reason(code: &u16) -> &'static str {
    match *code {
        BAD_NAME => "no name, an empty qualifier, or a byte that begins no part",
        BAD_OPERATOR => "expected one of the operators << <= = >= >>",
        BAD_VERSION => "expected a version",
        BAD_ARCHITECTURES => "expected names of architectures, all with `!` or none",
        NOT_CLOSED => "a bracket is not closed",
        ALTERNATIVES => "alternatives in a field that has none",
        RESTRICTION => "a restriction in a field that has none",
        NOT_EQUAL => "another operator than `=` in a Provides field",
        NO_ALTERNATIVE => "an empty alternative",
        BAD_PROFILES => "expected names of profiles",
        BAD_WORD => "a byte that a word may not have",
        MEMORY => "out of memory",
        _ => "no code of a relation field",
    }
}
