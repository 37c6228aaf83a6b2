//! How the fields of a paragraph are read.

ghost use Rattle.std.specs.Prelude.{◌≡◌};
ghost use Rattle.std.specs.Option.{option_map};
ghost use Rattle.deb_text.specs.Answers.{Gives};
ghost use Rattle.deb_relation.specs.View.{refusal_of};
ghost use Rattle.deb_fields.specs.Fields.{name_at, number_in, number_up_to, or_text};

use crate::error::BAD_VALUE;
use deb_relation::{BAD_NAME, RelationError};
use deb_text::{is_name, read_number};
use std::alloc::Global;

/// A value, or what stands for one that is absent.
pub fn or_text<'a>(value: Option<&'a [u8]>, text: &'a [u8]) -> &'a [u8]
    ensures { result.now ≡ or_text (option_map (λ v. v.now) value.entry) text.now }
{
    match value {
        Some(value) => value,
        None => text,
    }
}

/// Reads a name.
///
/// # Errors
///
/// 121 where it is none.
pub fn read_name(alloc: Global, text: &[u8]) -> Result<Vec<u8>, RelationError>
    ensures { Gives refusal_of (λ name. name.items) result (name_at text.now) }
{
    if !is_name(text) {
        return Err(RelationError { code: BAD_NAME });
    }
    Ok(Vec::from_slice(alloc, text)?)
}

/// Reads a number that is at most `most`.
fn number_up_to(most: u64, text: &[u8]) -> Result<u64, RelationError>
    ensures { Gives refusal_of (λ n. n) result (number_up_to most text.now) }
{
    match read_number(text) {
        Some(number) => {
            if number > most {
                return Err(RelationError { code: BAD_VALUE });
            }
            Ok(number)
        }
        None => Err(RelationError { code: BAD_VALUE }),
    }
}

/// Reads a number that may be absent.
///
/// # Errors
///
/// 202 where it is no number, or over `most`.
pub fn read_number_in(most: u64, value: Option<&[u8]>) -> Result<Option<u64>, RelationError>
    ensures { Gives refusal_of (λ n. n) result
        (number_in most (option_map (λ v. v.now) value.entry)) }
{
    match value {
        Some(text) => Ok(Some(number_up_to(most, text)?)),
        None => Ok(None),
    }
}
