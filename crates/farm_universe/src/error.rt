//! Why a part of the texts is refused.

ghost use Rattle.std.specs.Prelude.{◌≡◌};
ghost use Rattle.farm_universe.specs.View.{code_of, fault_of_field, field_told};

use crate::paragraph::Paragraph;
use deb_relation::{BAD_NAME, RelationError};
use deb_text::{Fault, MEMORY};
use deb_version::VersionError;
use std::alloc::{AllocError, AllocFailed};

/// A field that has to stand is absent.
pub const ABSENT: u16 = 201;

/// A field has no number, one over its limit, no mode, or neither `yes` nor `no`.
pub const BAD_VALUE: u16 = 202;

/// A version of a package or a source, a variant of a list, or the name of a recipe or a chroot
/// stands a second time.
pub const TWICE: u16 = 203;

/// A name has more than [`MOST_VARIANTS`](crate::limits::MOST_VARIANTS) versions.
pub const TOO_MANY_VARIANTS: u16 = 204;

/// An item of a list of variants names none.
pub const UNKNOWN_VARIANT: u16 = 205;

/// The source of a recipe names none.
pub const UNKNOWN_SOURCE: u16 = 206;

/// An output is in the initial archive, or an earlier recipe gives it.
pub const TAKEN: u16 = 207;

/// A recipe has no output.
pub const NO_OUTPUT: u16 = 208;

/// A base chroot is not settled, has a member that excludes another or two variants of a name, or
/// is over its capacity.
pub const UNSETTLED_BASE: u16 = 209;

/// There are more names, relation entries, sources, recipes or base chroots than the limits allow.
pub const OVER_LIMIT: u16 = 210;

/// Why a paragraph is refused, apart from its place.
#[derive(Clone, Copy, Debug, PartialEq, Eq)]
pub enum FieldFault {
    Absent,
    BadName,
    BadVersion(VersionError),
    BadRelations(RelationError),
    BadValue,
    Twice,
    TooManyVariants,
    UnknownVariant,
    UnknownSource,
    Taken,
    NoOutput,
    UnsettledBase,
    OverLimit,
    Memory,
}

impl FieldFault {
    const fn code(self) -> u16
        ensures { result ≡ code_of self }
    {
        match self {
            FieldFault::Absent => ABSENT,
            FieldFault::BadName => BAD_NAME,
            FieldFault::BadVersion(error) => error.code,
            FieldFault::BadRelations(error) => error.code,
            FieldFault::BadValue => BAD_VALUE,
            FieldFault::Twice => TWICE,
            FieldFault::TooManyVariants => TOO_MANY_VARIANTS,
            FieldFault::UnknownVariant => UNKNOWN_VARIANT,
            FieldFault::UnknownSource => UNKNOWN_SOURCE,
            FieldFault::Taken => TAKEN,
            FieldFault::NoOutput => NO_OUTPUT,
            FieldFault::UnsettledBase => UNSETTLED_BASE,
            FieldFault::OverLimit => OVER_LIMIT,
            FieldFault::Memory => MEMORY,
        }
    }

    /// The fault of a paragraph that begins at this line.
    fn at(self, file: u8, line: u32) -> Fault
        ensures { result ≡ fault_of_field file line self }
    {
        Fault::place(file, line, self.code())
    }
}

/// What is read of a paragraph, a fault told at the paragraph's first line.
///
/// # Errors
///
/// The fault, at the first line of the paragraph; [`Fault::MEMORY`] where memory is refused.
pub fn told<X>(file: u8, paragraph: &Paragraph, read: Result<X, FieldFault>) -> Result<X, Fault>
    ensures { result ≡ field_told file paragraph.now read }
{
    match read {
        Ok(value) => Ok(value),
        Err(fault) => Err(fault.at(file, paragraph.line())),
    }
}

impl From<AllocError> for FieldFault {
    ghost use Rattle.farm_universe.specs.declared.error.FieldFault.TheVariants.{Memory};

    ghost from_gives = { λ _ fault. fault ≡ Memory };

    fn from(_error: AllocError) -> FieldFault {
        FieldFault::Memory
    }
}

impl<T: Drop> From<AllocFailed<T>> for FieldFault {
    ghost use Rattle.farm_universe.specs.declared.error.FieldFault.TheVariants.{Memory};

    ghost from_gives = { λ _ fault. fault ≡ Memory };

    fn from(_error: AllocFailed<T>) -> FieldFault {
        FieldFault::Memory
    }
}

impl From<VersionError> for FieldFault {
    ghost use Rattle.farm_universe.specs.declared.error.FieldFault.TheVariants.{BadVersion};

    ghost from_gives = { λ error fault. fault ≡ BadVersion error };

    fn from(error: VersionError) -> FieldFault {
        FieldFault::BadVersion(error)
    }
}

impl From<RelationError> for FieldFault {
    ghost use Rattle.farm_universe.specs.declared.error.FieldFault.TheVariants.{BadRelations};

    ghost from_gives = { λ error fault. fault ≡ BadRelations error };

    fn from(error: RelationError) -> FieldFault {
        FieldFault::BadRelations(error)
    }
}
