//! Numbers in decimal digits.

ghost use Rattle.std.specs.Prelude.{◌≡◌, ◌<◌, ◌≤◌, ◌^◌, true, length, IfSome};
ghost use Rattle.std.specs.List.{list_all};
ghost use Rattle.deb_text.specs.Bytes.{is_digit};
ghost use Rattle.deb_text.specs.Numbers.{is_number, number, number_at};

use crate::classes::{Class, all_in};

/// The most digits that a number has.
const MOST_DIGITS: usize = 15;

/// Tells whether a text is a number: 1 to 15 digits, of which the first may be zeros.
pub fn is_number(text: &[u8]) -> bool
    ensures number { result ≡ is_number text.now }
    ensures short { result ≡ true → length text.now ≤ 15 }
    ensures digits { result ≡ true → list_all is_digit text.now ≡ true }
{
    !text.is_empty() && text.len() <= MOST_DIGITS && all_in(Class::Digit, text)
}

/// Gives the number that at most 15 digits spell. No digits spell 0.
pub fn number_of(digits: &[u8]) -> u64
    requires short { length digits.now ≤ 15 }
    requires digits { list_all is_digit digits.now ≡ true }
    ensures number { result ≡ number digits.now }
    ensures small { result < 10 ^ 15 }
{
    let mut number: u64 = 0;
    for digit in digits {
        number = number * 10 + u64::from(*digit - b'0');
    }
    number
}

/// Reads the number that a text spells, if it is 1 to 15 digits.
pub fn read_number(text: &[u8]) -> Option<u64>
    ensures number { result ≡ number_at text.now }
    ensures small { IfSome result (λ n. n < 10 ^ 15) }
{
    if !is_number(text) {
        return None;
    }
    Some(number_of(text))
}
