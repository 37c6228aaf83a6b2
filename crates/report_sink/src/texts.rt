//! Texts, written to a sink.

ghost use Rattle.std.specs.Prelude.{◌≡◌, is_err};
ghost use Rattle.std.specs.List.{flat_map};
ghost use Rattle.report_sink.specs.Sinks.{IsWritten};

use crate::failures::WriteFailed;
use crate::sink::{Sink, whether_written};

/// Writes a text. A sink that had failed before is not written to.
///
/// # Errors
///
/// [`WriteFailed`] where the sink has failed. It has then taken a first part of the text.
pub fn write_text<S: Sink>(out: &mut S, text: &[u8]) -> Result<(), WriteFailed>
    ensures written { IsWritten (S.state out.old) (S.state out.new) text.now }
    ensures told { is_err result ≡ (S.state out.new).failed }
{
    if out.has_failed() {
        return Err(WriteFailed);
    }
    let mut rest = text;
    while !rest.is_empty() {
        let count = out.write(rest).unwrap_or(0);
        if count == 0 {
            return Err(WriteFailed);
        }
        rest = &rest[count..];
    }
    Ok(())
}

/// Writes pieces of a text, one behind the other. A sink that had failed before is not written to.
///
/// # Errors
///
/// [`WriteFailed`] where the sink has failed. It has then taken a first part of the text.
pub fn write_pieces<S: Sink>(out: &mut S, pieces: &[&[u8]]) -> Result<(), WriteFailed>
    ensures written { IsWritten (S.state out.old) (S.state out.new)
        (flat_map (λ piece. piece.now) pieces.now) }
    ensures told { is_err result ≡ (S.state out.new).failed }
{
    for piece in pieces {
        write_text(out, piece)?;
    }
    whether_written(out)
}
