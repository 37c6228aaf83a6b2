//! Fields of a package that have a few values.

ghost use Rattle.std.specs.Prelude.{◌≡◌};
ghost use Rattle.std.specs.Option.{option_map};
ghost use Rattle.deb_text.specs.Answers.{Gives};
ghost use Rattle.deb_relation.specs.View.{refusal_of};
ghost use Rattle.import_closure.specs.Given.{flag_in, flag_of, rank_of, size_in};
ghost use Rattle.import_closure.specs.Version.{version_text_at};

use deb_fields::{BAD_VALUE, read_number_in};
use deb_relation::{BAD_VERSION, RelationError};
use deb_text::MEMORY;
use deb_version::Version;
use std::alloc::Global;

/// The most KiB of a package.
pub const MOST_SIZE: u64 = 4_294_967_295;

/// Reads a version.
///
/// # Errors
///
/// 123 where it is none.
pub fn read_version(alloc: Global, text: &[u8]) -> Result<Version, RelationError>
    ensures { Gives refusal_of (λ version. version) result (version_text_at text.now) }
{
    match Version::parse(alloc, text) {
        Ok(version) => Ok(version),
        Err(error) => Err(RelationError {
            code: if error.code == MEMORY {
                MEMORY
            } else {
                BAD_VERSION
            },
        }),
    }
}

/// Reads Installed-Size, in KiB: 0 where it is absent.
///
/// # Errors
///
/// 202 where it is no number, or over [`MOST_SIZE`].
pub fn read_size(value: Option<&[u8]>) -> Result<u64, RelationError>
    ensures { Gives refusal_of (λ size. size) result
        (size_in (option_map (λ v. v.now) value.entry)) }
{
    match read_number_in(MOST_SIZE, value)? {
        Some(size) => Ok(size),
        None => Ok(0),
    }
}

fn flag_of(text: &[u8]) -> Result<bool, RelationError>
    ensures { Gives refusal_of (λ flag. flag) result (flag_of text.now) }
{
    if text == b"yes".as_slice() {
        return Ok(true);
    }
    if text == b"no".as_slice() {
        return Ok(false);
    }
    Err(RelationError { code: BAD_VALUE })
}

/// Reads `yes` or `no`: no where it is absent.
///
/// # Errors
///
/// 202 where it is neither.
pub fn read_flag(value: Option<&[u8]>) -> Result<bool, RelationError>
    ensures { Gives refusal_of (λ flag. flag) result
        (flag_in (option_map (λ v. v.now) value.entry)) }
{
    match value {
        Some(text) => flag_of(text),
        None => Ok(false),
    }
}

/// The rank of a Priority, the most important first: 5 where it is absent or none of the five.
pub fn rank_of(value: Option<&[u8]>) -> u8
    ensures { result ≡ rank_of (option_map (λ v. v.now) value.entry) }
{
    let Some(text) = value else {
        return 5;
    };
    if text == b"required".as_slice() {
        return 0;
    }
    if text == b"important".as_slice() {
        return 1;
    }
    if text == b"standard".as_slice() {
        return 2;
    }
    if text == b"optional".as_slice() {
        return 3;
    }
    if text == b"extra".as_slice() { 4 } else { 5 }
}
