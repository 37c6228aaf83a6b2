//! What is said on the error output.

ghost use Rattle.std.specs.Prelude.{◌≡◌, is_err};
ghost use Rattle.farm_answers.specs.Reasons.{words_of};
ghost use Rattle.farm_answers.specs.FaultLines.{bad_schedule_lines, cannot_read_line, escaped_line, outside_fault_line, fault_status};
ghost use Rattle.report_sink.specs.Sinks.{IsWritten};

use crate::fault::{OutsideFault, Unread};
use crate::status::{OUTSIDE, WRONG_WORDS};
use report_sink::{Sink, WriteFailed, write_pieces, write_text};
use shown_text::write_escaped;

/// Says a text on the error output, and gives the status.
pub fn say<E: Sink>(errors: &mut E, text: &[u8], status: u8) -> u8
    ensures status { result ≡ status }
    ensures line { IsWritten (E.state errors.old) (E.state errors.new) text.now }
{
    let _written = write_text(errors, text);
    status
}

/// Writes a name, some words and the end of the line.
fn write_name<E: Sink>(errors: &mut E, name: &[u8], words: &[u8]) -> Result<(), WriteFailed>
    ensures written { IsWritten (E.state errors.old) (E.state errors.new)
        (escaped_line name.now words.now) }
    ensures told { is_err result ≡ (E.state errors.new).failed }
{
    write_escaped(errors, name)?;
    write_pieces(errors, &[words, b"\n"])
}

/// Writes the line of a file that cannot be read, with these words on why.
fn write_unread<E: Sink>(errors: &mut E, name: &[u8], words: &[u8]) -> Result<(), WriteFailed>
    ensures { IsWritten (E.state errors.old) (E.state errors.new)
        (cannot_read_line name.now words.now) }
{
    write_text(errors, b"portfarm: cannot read ")?;
    write_name(errors, name, words)
}

/// Says that a file cannot be read, and why, and gives the status.
fn tell_unread<E: Sink>(errors: &mut E, unread: Unread<'_>) -> u8
    ensures status { result ≡ OUTSIDE }
    ensures line { IsWritten (E.state errors.old) (E.state errors.new)
        (cannot_read_line unread.entry.name.now (words_of unread.entry.why)) }
{
    let _written = write_unread(errors, unread.name.as_bytes(), unread.why.words());
    OUTSIDE
}

/// Says that a schedule is none, and this below it, and gives the status.
fn tell_schedule<E: Sink>(errors: &mut E, note: &[u8]) -> u8
    ensures status { result ≡ WRONG_WORDS }
    ensures line { IsWritten (E.state errors.old) (E.state errors.new)
        (bad_schedule_lines note.now) }
{
    let head: &[u8] = b"portfarm: bad schedule\n";
    let _written = write_pieces(errors, &[head, note]);
    WRONG_WORDS
}

/// Ends with a fault outside of the texts: says it on the error output, without memory of its own.
pub fn tell<E: Sink>(fault: OutsideFault<'_>, errors: &mut E) -> u8
    ensures status { result ≡ fault_status fault.entry }
    ensures line { IsWritten (E.state errors.old) (E.state errors.new)
        (outside_fault_line fault.entry) }
{
    match fault {
        OutsideFault::CannotRead(unread) => tell_unread(errors, unread),
        OutsideFault::OutOfMemory => say(errors, b"portfarm: out of memory\n", OUTSIDE),
        OutsideFault::CutShort => say(errors, b"portfarm: out of memory\n", OUTSIDE),
        OutsideFault::BadSchedule(note) => tell_schedule(errors, note),
        OutsideFault::WriteFailed => say(errors, b"portfarm: write failed\n", OUTSIDE),
    }
}
