//! The messages of refusals.

ghost use Rattle.std.specs.Prelude.{◌≡◌, ◌<◌, true, Some};
ghost use Rattle.std.specs.Char.{digit_char};
ghost use Rattle.std.specs.Fmt.{WritesOnOk};
ghost use Rattle.deb_text.specs.Lists.{lists};
ghost use Rattle.plan_verifier.specs.Messages as spec;

use crate::refusal::Refusal;
use std::error::Error;
use std::fmt::{self, Display, Formatter};

/// A hexadecimal digit.
fn hex_digit(digit: u8) -> u8
    requires { digit < 16 }
    ensures digit { result ≡ digit_char digit }
    ensures ascii { result < 128 }
{
    if digit < 10 {
        b'0' + digit
    } else {
        b'a' + (digit - 10)
    }
}

fn is_plain(byte: u8) -> bool
    ensures plain { result ≡ spec.is_plain byte }
    ensures ascii { result ≡ true → byte < 128 }
{
    32 <= byte && byte <= 126 && byte != b'\\'
}

/// A byte as it is, or escaped.
fn write_escaped<W: fmt::Write>(f: &mut Formatter<W>, byte: u8) -> fmt::Result
    ensures { WritesOnOk W.write_str_gives f.old result (spec.escaped_byte byte) f.new }
{
    if is_plain(byte) {
        return f.write_char(byte as char);
    }
    f.write_str("\\x")?;
    f.write_char(hex_digit(byte / 16) as char)?;
    f.write_char(hex_digit(byte % 16) as char)
}

/// A name. A byte other than printable ASCII, or a backslash, is written as `\x` and two
/// hexadecimal digits.
#[derive(Clone, Copy)]
struct Escaped<'a>(&'a [u8]);

impl Display for Escaped<'_> {
    ghost output = { λ name. Some (spec.escaped name.0.now) };

    fn fmt<W: fmt::Write>(&self, f: &mut Formatter<W>) -> fmt::Result {
        for byte in self.0 {
            write_escaped(f, *byte)?;
        }
        Ok(())
    }
}

/// Names, each behind a space.
#[derive(Clone, Copy)]
struct Spaced<'a>(&'a [Vec<u8>]);

impl Display for Spaced<'_> {
    ghost output = { λ names. Some (spec.escaped_names (lists names.0.now)) };

    fn fmt<W: fmt::Write>(&self, f: &mut Formatter<W>) -> fmt::Result {
        for name in self.0 {
            write!(f, " {}", Escaped(name))?;
        }
        Ok(())
    }
}

impl Display for Refusal {
    ghost output = { spec.refusal_message };

    fn fmt<W: fmt::Write>(&self, f: &mut Formatter<W>) -> fmt::Result {
        match self {
            Refusal::Text(fault) => write!(f, "{fault}"),
            Refusal::Unsafe {
                lane,
                instruction,
                trap,
            } => {
                let lane = Escaped(lane);
                write!(
                    f,
                    "instruction {instruction} of lane {lane} may meet {trap}"
                )
            }
            Refusal::Uneven { lane, instruction } => {
                let lane = Escaped(lane);
                write!(
                    f,
                    "the branches of instruction {instruction} of lane {lane} end in different phases"
                )
            }
            Refusal::Stuck { lanes } => write!(f, "stuck lanes:{}", Spaced(lanes)),
            Refusal::Memory => write!(f, "out of memory"),
        }
    }
}

impl Error for Refusal {}
