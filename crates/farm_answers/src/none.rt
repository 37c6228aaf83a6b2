//! What is written where a verdict is asked for as JSON, and there is none.

ghost use Rattle.std.specs.Prelude.{◌≡◌, is_err};
ghost use Rattle.farm_answers.specs.NoneLines.{SaysNone, TellsNone, none_line, quoted_end};
ghost use Rattle.report_sink.specs.Sinks.{IsWritten};

use crate::fault::OutsideFault;
use report_sink::{Sink, WriteFailed, write_pieces, write_text};
use shown_text::write_quoted;

/// Writes a name as a string of JSON has it, some words, and the end of the line.
fn write_quoted_end<S: Sink>(out: &mut S, name: &[u8], words: &[u8]) -> Result<(), WriteFailed>
    ensures written { IsWritten (S.state out.old) (S.state out.new)
        (quoted_end name.now words.now) }
    ensures told { is_err result ≡ (S.state out.new).failed }
{
    write_quoted(out, name)?;
    write_pieces(out, &[words, b"\",\"verdict\":\"none\"}\n"])
}

/// Writes the line of a file that cannot be read, with these words on why.
fn write_none<S: Sink>(out: &mut S, name: &[u8], words: &[u8]) -> Result<(), WriteFailed>
    ensures { IsWritten (S.state out.old) (S.state out.new) (none_line name.now words.now) }
{
    write_text(out, b"{\"error\":\"cannot read ")?;
    write_quoted_end(out, name, words)
}

/// Writes as JSON why there is no verdict, where a file cannot be read or memory ran out.
fn tell_none<S: Sink>(told: &Result<u8, OutsideFault<'_>>, out: &mut S)
    ensures { TellsNone (S.state out.old) (S.state out.new) told.now }
{
    match told {
        Err(OutsideFault::CannotRead(unread)) => {
            let _written = write_none(out, unread.name.as_bytes(), unread.why.words());
        }
        Err(OutsideFault::OutOfMemory) => {
            let _written = write_text(out, b"{\"error\":\"out of memory\",\"verdict\":\"none\"}\n");
        }
        _ => {}
    }
}

/// Writes as JSON why there is no verdict, where it is asked for so, and a file cannot be read or
/// memory ran out. It needs no memory.
pub fn say_none<S: Sink>(json: bool, told: &Result<u8, OutsideFault<'_>>, out: &mut S)
    ensures { SaysNone json (S.state out.old) (S.state out.new) told.now }
{
    if json {
        tell_none(told, out);
    }
}
