//! The lines that begin a field.

ghost use Rattle.std.specs.Prelude.{◌≡◌, [], IfNone, IfOk, IfSome, true, false, if◌then◌else◌, Some, None};
ghost use Rattle.std.specs.List.{list_any};
ghost use Rattle.std.specs.Option.{option_map};
ghost use Rattle.deb_text.specs.Common.{Gives, refusal_of, fault_at, is_byte, first_is, is_nil, after, front, behind, answer};
ghost use Rattle.deb_stanza.specs.Keys.{is_name_byte, is_named};
ghost use Rattle.deb_stanza.specs.Stanza.{is_colon, name_of, name_fault, told_at, same_name};

use crate::error::{BAD_FIELD_NAME, NO_COLON};
use deb_text::{Fault, Line, cut_at_first, is_same_text};

/// A code told at a line.
pub fn fault(line: u32, code: u16) -> Fault
    ensures { result ≡ fault_at 0 line code }
{
    Fault {
        file: 0,
        line,
        code,
    }
}

/// Tells whether a byte may stand in a name.
fn is_name_byte(b: u8) -> bool
    ensures { result ≡ is_name_byte b }
{
    b != b':' && 33 <= b && b <= 126
}

/// The bytes in front of a text that may stand in a name, and the rest.
fn split_name(text: &[u8]) -> (&[u8], &[u8])
    ensures name { result.0.now ≡ front is_name_byte text.now }
    ensures rest { result.1.now ≡ behind is_name_byte text.now }
{
    for (place, byte) in text.iter().enumerate() {
        if !is_name_byte(*byte) {
            return text.split_at(place);
        }
    }
    text.split_at(text.len())
}

fn begins_with_hyphen(name: &[u8]) -> bool
    ensures { result ≡ first_is (is_byte 45) name.now }
{
    name.first() == Some(&b'-')
}

fn begins_with_colon(text: &[u8]) -> bool
    ensures { result ≡ first_is is_colon text.now }
{
    text.first() == Some(&b':')
}

/// Tells whether the bytes in front are a name: a colon stands behind them, and no hyphen first.
fn is_named(name: &[u8], rest: &[u8]) -> bool
    ensures { result ≡ is_named name.now rest.now }
{
    begins_with_colon(rest) && !name.is_empty() && !begins_with_hyphen(name)
}

/// The fault of a line in front of which stands no name with a colon behind it.
fn name_fault(line: Line) -> Fault
    ensures { result ≡ fault_at 0 line.entry.number
        (if list_any is_colon line.entry.bytes.now then BAD_FIELD_NAME else NO_COLON) }
{
    if line.bytes.contains(&b':') {
        fault(line.number, BAD_FIELD_NAME)
    } else {
        fault(line.number, NO_COLON)
    }
}

/// The name before the first colon of a line.
///
/// # Errors
///
/// [`NO_COLON`], then [`BAD_FIELD_NAME`], at the line.
pub fn head_name(line: Line<'_>) -> Result<&[u8], Fault>
    ensures name { Gives refusal_of (λ name. name.now) result
        (answer (told_at line.entry.number (name_fault line.entry.bytes.now))
        (name_of line.entry.bytes.now)) }
    ensures colon { IfOk result (λ _. list_any is_colon line.entry.bytes.now ≡ true) }
{
    let (name, rest) = split_name(line.bytes);
    if is_named(name, rest) {
        Ok(name)
    } else {
        Err(name_fault(line))
    }
}

/// What stands before the first colon of a text, or all of it.
pub fn name_part(text: &[u8]) -> &[u8]
    ensures { result.now ≡ name_of text.now }
{
    match cut_at_first(b':', text) {
        Some((name, _)) => name,
        None => text,
    }
}

/// Tells whether two names are the same but for the case of ASCII letters.
fn is_same_name(a: &[u8], b: &[u8]) -> bool
    ensures { result ≡ same_name a.now b.now }
{
    // Most names are spelled alike.
    if is_same_text(a, b) {
        return true;
    }
    a.eq_ignore_ascii_case(b)
}

/// What stands behind a text's first byte, if that is a colon; of an empty text nothing.
fn behind_colon(text: &[u8]) -> Option<&[u8]>
    ensures none { IfNone result (is_nil (name_of text.now) ≡ false) }
    ensures colon { IfSome result (λ rest. name_of text.now ≡ []) }
    ensures behind { IfSome result (λ rest. rest.now ≡ after is_colon text.now) }
{
    match text {
        [first, rest @ ..] => (*first == b':').then_some(rest),
        [] => Some(text),
    }
}

/// What stands behind the colon of a field, if this is its name.
pub fn behind_name<'a>(name: &[u8], text: &'a [u8]) -> Option<&'a [u8]>
    ensures { option_map (λ rest. rest.now) result
        ≡ if same_name name.now (name_of text.now) then Some (after is_colon text.now) else None }
{
    let (given, behind) = text.split_at_checked(name.len())?;
    let rest = behind_colon(behind)?;
    if is_same_name(name, given) && !given.contains(&b':') {
        Some(rest)
    } else {
        None
    }
}
