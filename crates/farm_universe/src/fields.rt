//! How the fields of a paragraph are read.

ghost use Rattle.std.specs.Prelude.{IfOk, ◌≤◌};
ghost use Rattle.std.specs.Option.{option_map};
ghost use Rattle.deb_text.specs.Answers.{Gives};
ghost use Rattle.farm_universe.specs.FieldView.{first_relations_in};
ghost use Rattle.farm_universe.specs.Fields.{package_name_at, version_text_at, number_up_to, size_at, flag_of, flag_at, relations_in};
ghost use Rattle.farm_universe.specs.View.{refusal_of};

use crate::error::FieldFault;
use crate::field_text::FieldText;
use crate::limits::{KEPT_ENTRIES, MOST_SIZE};
use deb_relation::{Kind, Relations};
use deb_text::{is_name, read_number};
use deb_version::Version;
use std::alloc::Global;

/// Reads a name.
///
/// # Errors
///
/// 121 where it is none. [`FieldFault::Memory`] where memory is refused.
pub fn read_name(alloc: Global, text: &[u8]) -> Result<Vec<u8>, FieldFault>
    ensures { Gives refusal_of (λ name. name.items) result (package_name_at text.now) }
{
    if !is_name(text) {
        return Err(FieldFault::BadName);
    }
    Ok(Vec::from_slice(alloc, text)?)
}

/// Reads a version.
///
/// # Errors
///
/// 111 to 114, by what is wrong with it. [`FieldFault::Memory`] where memory is refused.
pub fn read_version(alloc: Global, text: &[u8]) -> Result<Version, FieldFault>
    ensures { Gives refusal_of (λ version. version) result (version_text_at text.now) }
{
    Ok(Version::parse(alloc, text)?)
}

/// Reads a number that is at most `most`.
///
/// # Errors
///
/// 202 where it is no number, or over that.
pub fn read_number_up_to(most: u64, text: &[u8]) -> Result<u64, FieldFault>
    ensures read { Gives refusal_of (λ n. n) result (number_up_to most text.now) }
    ensures small { IfOk result (λ n. n ≤ most) }
{
    match read_number(text) {
        Some(number) => {
            if number > most {
                return Err(FieldFault::BadValue);
            }
            Ok(number)
        }
        None => Err(FieldFault::BadValue),
    }
}

/// Reads Installed-Size or Scratch, in KiB.
///
/// # Errors
///
/// 202 where it is no number, or over [`MOST_SIZE`].
pub fn read_size(value: Option<&[u8]>) -> Result<u64, FieldFault>
    ensures read { Gives refusal_of (λ n. n) result
        (size_at (option_map (λ v. v.now) value.entry)) }
    ensures small { IfOk result (λ n. n ≤ MOST_SIZE) }
{
    match value {
        Some(text) => read_number_up_to(MOST_SIZE, text),
        None => Ok(0),
    }
}

fn flag_of(text: &[u8]) -> Result<bool, FieldFault>
    ensures { Gives refusal_of (λ flag. flag) result (flag_of text.now) }
{
    if text == b"yes".as_slice() {
        return Ok(true);
    }
    if text == b"no".as_slice() {
        return Ok(false);
    }
    Err(FieldFault::BadValue)
}

/// Reads a field of `yes` or `no`, `no` where it is absent.
///
/// # Errors
///
/// 202 for another word.
pub fn read_flag(value: Option<&[u8]>) -> Result<bool, FieldFault>
    ensures { Gives refusal_of (λ flag. flag) result
        (flag_at (option_map (λ v. v.now) value.entry)) }
{
    match value {
        Some(text) => flag_of(text),
        None => Ok(false),
    }
}

/// Judges a relation field, and keeps it as it is written.
///
/// # Errors
///
/// 121 to 130, the first fault of the field. [`FieldFault::Memory`] where memory is refused.
pub fn keep_relations(
    alloc: Global,
    kind: Kind,
    value: Option<&[u8]>,
) -> Result<FieldText, FieldFault>
    ensures { Gives refusal_of (λ field. field) result
        (relations_in kind (option_map (λ v. v.now) value.entry)) }
{
    match value {
        Some(text) => FieldText::read(alloc, kind, text),
        None => Ok(FieldText::absent(alloc, kind)),
    }
}

/// Reads a relation field, and keeps its first entries.
///
/// # Errors
///
/// 121 to 130, the first fault of the whole field. [`FieldFault::Memory`] where memory is refused.
pub fn read_relations(
    alloc: Global,
    kind: Kind,
    value: Option<&[u8]>,
) -> Result<Relations, FieldFault>
    ensures { Gives refusal_of (λ r. r) result
        (first_relations_in kind (option_map (λ v. v.now) value.entry)) }
{
    match value {
        Some(text) => Ok(Relations::parse_first(alloc, text, kind, KEPT_ENTRIES)?),
        None => Ok(Relations::from_entries(Vec::new(alloc))),
    }
}
