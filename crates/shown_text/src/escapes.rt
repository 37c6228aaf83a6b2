//! Bytes and values as lines and notes show them. What a note shows is only tested.

ghost use Rattle.std.specs.Prelude.{◌≡◌, ◌<◌, is_err, flat_map};
ghost use Rattle.std.specs.Char.{digit_char};
ghost use Rattle.shown_text.specs.Escapes as spec;
ghost use Rattle.report_sink.specs.Sinks.{IsWritten};

use deb_text::{Class, has, push_pieces};
use report_sink::{Sink, WriteFailed, whether_written, write_pieces};
use std::alloc::AllocError;

/// Whether a text was written; else the sink has failed, and has taken a first part of the text.
type Written = Result<(), WriteFailed>;

/// The most bytes of a line or a value that are shown.
const MOST_SHOWN: usize = 200;

/// A hexadecimal digit.
fn hex_digit(digit: u8) -> u8
    requires { digit < 16 }
    ensures { result ≡ digit_char digit }
{
    if digit < 10 {
        b'0' + digit
    } else {
        b'a' + (digit - 10)
    }
}

fn is_plain(byte: u8) -> bool
    ensures { result ≡ spec.is_plain byte }
{
    32 <= byte && byte <= 126 && byte != b'\\'
}

/// What a string of JSON has ahead of a byte as it is, or escaped.
fn quote_mark(byte: u8) -> &'static [u8]
    ensures { result.now ≡ spec.quote_mark byte }
{
    if byte == b'"' || !is_plain(byte) {
        b"\\"
    } else {
        b""
    }
}

/// Writes a byte as it is, or escaped; as a string of JSON has that, or not.
#[tactic(auto, unfolding(crate::specs::Escapes::escaped_byte))]
fn write_byte<S: Sink>(out: &mut S, is_quoted: bool, byte: u8) -> Written
    ensures written { IsWritten (S.state out.old) (S.state out.new)
        (spec.shown_byte is_quoted byte) }
    ensures told { is_err result ≡ (S.state out.new).failed }
{
    let mark = if is_quoted { quote_mark(byte) } else { b"" };
    if is_plain(byte) {
        return write_pieces(out, &[mark, &[byte]]);
    }
    let (high, low) = (hex_digit(byte / 16), hex_digit(byte % 16));
    write_pieces(out, &[mark, &[b'\\', b'x', high, low]])
}

/// Writes bytes as they are, or escaped; as a string of JSON has that, or not.
fn write_bytes<S: Sink>(out: &mut S, is_quoted: bool, bytes: &[u8]) -> Written
    ensures written { IsWritten (S.state out.old) (S.state out.new)
        (flat_map (spec.shown_byte is_quoted) bytes.now) }
    ensures told { is_err result ≡ (S.state out.new).failed }
{
    for byte in bytes {
        write_byte(out, is_quoted, *byte)?;
    }
    whether_written(out)
}

/// Writes bytes. One other than printable ASCII, and a backslash, is written as `\x` and two
/// hexadecimal digits. A sink that had failed before is not written to.
///
/// # Errors
///
/// [`WriteFailed`] where the sink has failed. It has then taken a first part of the text.
pub fn write_escaped<S: Sink>(out: &mut S, bytes: &[u8]) -> Result<(), WriteFailed>
    ensures written { IsWritten (S.state out.old) (S.state out.new) (spec.escaped bytes.now) }
    ensures told { is_err result ≡ (S.state out.new).failed }
{
    write_bytes(out, false, bytes)
}

/// Writes bytes as [`write_escaped`] does, as they stand in a string of JSON: with one more backslash
/// ahead of each, and one ahead of a quotation mark.
///
/// # Errors
///
/// [`WriteFailed`] where the sink has failed. It has then taken a first part of the text.
pub fn write_quoted<S: Sink>(out: &mut S, bytes: &[u8]) -> Result<(), WriteFailed>
    ensures written { IsWritten (S.state out.old) (S.state out.new) (spec.quoted bytes.now) }
    ensures told { is_err result ≡ (S.state out.new).failed }
{
    write_bytes(out, true, bytes)
}

/// The first bytes of a line or a value.
pub fn shown(line: &[u8]) -> &[u8] {
    &line[..line.len().min(MOST_SHOWN)]
}

/// Puts bytes behind a text as [`write_escaped`] writes them.
pub fn push_escaped(text: &mut Vec<u8>, bytes: &[u8]) -> Result<(), AllocError> {
    for byte in bytes {
        if is_plain(*byte) {
            text.push(*byte)?;
        } else {
            let (high, low) = (hex_digit(*byte / 16), hex_digit(*byte % 16));
            push_pieces(text, &[&[b'\\', b'x', high, low]])?;
        }
    }
    Ok(())
}

/// Puts a value behind a text: its first 200 bytes, escaped, with one blank in place of each run of
/// them.
pub fn push_value(text: &mut Vec<u8>, value: &[u8]) -> Result<(), AllocError> {
    let mut before: &[u8] = b"";
    for word in shown(value).split(|byte| has(Class::Blank, *byte)) {
        if !word.is_empty() {
            push_pieces(text, &[before])?;
            push_escaped(text, word)?;
            before = b" ";
        }
    }
    Ok(())
}
