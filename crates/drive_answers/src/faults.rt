//! What ends a drive outside of its plan, as the error output tells it.

ghost use Rattle.std.specs.Prelude.{◌≡◌};
ghost use Rattle.std.specs.Option.{option_map};
ghost use Rattle.drive_answers.specs.DriveLines as spec;
ghost use Rattle.drive_answers.specs.DriveLines.{IsLineTold, entry_line, fault_line, misfit_line, no_run_line, open_line, other_line, start_line, stopped_line, store_line};
ghost use Rattle.farm_answers.specs.declared.status.TheConstants.{OUTSIDE};
ghost use Rattle.report_sink.specs.Sinks.{IsWritten};

use crate::kept::NoRun;
use drive_journal::{OpenFault, StoreFault};
use drive_run::{Fault, StartFault};
use farm_answers::{OUTSIDE, OutsideFault, say};
use itoa::Buffer;
use report_sink::{Sink, write_pieces};

/// The text that a line of a journal's head is of.
fn head_word(line: u64) -> Option<&'static [u8]>
    ensures { option_map (λ word. word.now) result ≡ spec.head_word line }
{
    match line {
        2 => Some(b"packages"),
        3 => Some(b"sources"),
        4 => Some(b"farm"),
        5 => Some(b"plan"),
        _ => None,
    }
}

/// Tells that the text of a journal's head is another one, and gives the status.
fn tell_other<E: Sink>(word: &[u8], errors: &mut E) -> u8
    ensures status { result ≡ OUTSIDE }
    ensures line { IsWritten (E.state errors.old) (E.state errors.new) (other_line word.now) }
{
    let head: &[u8] = b"portfarm: journal does not fit: ";
    let _written = write_pieces(errors, &[head, word, b"\n"]);
    OUTSIDE
}

/// Tells which line of a journal does not fit, and gives the status.
fn tell_line<E: Sink>(line: u64, errors: &mut E) -> u8
    ensures status { result ≡ OUTSIDE }
    ensures line { IsWritten (E.state errors.old) (E.state errors.new) (entry_line line) }
{
    let mut digits = Buffer::new();
    let number = digits.format(line);
    let head: &[u8] = b"portfarm: journal does not fit: line ";
    let _written = write_pieces(errors, &[head, number.as_bytes(), b"\n"]);
    OUTSIDE
}

/// Tells which line of a journal does not fit; of the head the text that is another one. Gives the
/// status.
pub fn tell_misfit<E: Sink>(line: u64, errors: &mut E) -> u8
    ensures status { result ≡ OUTSIDE }
    ensures line { IsWritten (E.state errors.old) (E.state errors.new) (misfit_line line) }
{
    match head_word(line) {
        Some(word) => tell_other(word, errors),
        None => tell_line(line, errors),
    }
}

/// Says why a journal is not opened, and gives the status.
fn tell_unopened<E: Sink>(fault: OpenFault, errors: &mut E) -> u8
    ensures status { result ≡ OUTSIDE }
    ensures line { IsWritten (E.state errors.old) (E.state errors.new) (open_line fault) }
{
    match fault {
        OpenFault::InUse => say(errors, b"portfarm: journal is in use\n", OUTSIDE),
        OpenFault::Unopened => say(errors, b"portfarm: cannot open journal\n", OUTSIDE),
    }
}

/// Says why no run goes on by a journal, and gives the status.
///
/// # Errors
///
/// [`OutsideFault::OutOfMemory`] where memory was refused.
fn tell_unkept<'a, E: Sink>(fault: StoreFault, errors: &mut E) -> Result<u8, OutsideFault<'a>>
    ensures { IsLineTold (store_line fault) (E.state errors.old) (E.state errors.new) result }
{
    match fault {
        StoreFault::Unread => Ok(say(errors, b"portfarm: cannot open journal\n", OUTSIDE)),
        StoreFault::Misfit(line) => Ok(tell_misfit(line, errors)),
        StoreFault::Failed => Ok(say(errors, b"portfarm: journal failed\n", OUTSIDE)),
        StoreFault::Memory => Err(OutsideFault::OutOfMemory),
    }
}

/// Says why there is no run by a journal, and gives the status.
///
/// # Errors
///
/// [`OutsideFault::OutOfMemory`] where memory was refused.
pub fn tell_no_run<'a, E: Sink>(none: NoRun, errors: &mut E) -> Result<u8, OutsideFault<'a>>
    ensures { IsLineTold (no_run_line none) (E.state errors.old) (E.state errors.new) result }
{
    match none {
        NoRun::Unopened(fault) => Ok(tell_unopened(fault, errors)),
        NoRun::Unkept(fault) => tell_unkept(fault, errors),
    }
}

/// Says why a drive does not begin, and gives the status.
///
/// # Errors
///
/// [`OutsideFault::OutOfMemory`] where memory was refused.
pub fn tell_start<'a, E: Sink>(fault: StartFault, errors: &mut E) -> Result<u8, OutsideFault<'a>>
    ensures { IsLineTold (start_line fault) (E.state errors.old) (E.state errors.new) result }
{
    match fault {
        StartFault::Misfit(line) => Ok(tell_misfit(line, errors)),
        StartFault::WriteFailed => Ok(say(errors, b"portfarm: write failed\n", OUTSIDE)),
        StartFault::Memory => Err(OutsideFault::OutOfMemory),
    }
}

/// Says what failed outside of the plan, and gives the status.
pub fn tell_outside<E: Sink>(fault: Fault, errors: &mut E) -> u8
    ensures status { result ≡ OUTSIDE }
    ensures line { IsWritten (E.state errors.old) (E.state errors.new) (fault_line fault) }
{
    match fault {
        Fault::WriteFailed => say(errors, b"portfarm: write failed\n", OUTSIDE),
        Fault::JournalFailed => say(errors, b"portfarm: journal failed\n", OUTSIDE),
        Fault::JournalMisfit => say(errors, b"portfarm: journal does not fit\n", OUTSIDE),
        Fault::BadAnswer => say(errors, b"portfarm: bad answer\n", OUTSIDE),
    }
}

/// Says that a run stopped, by its code and the lane that is the cause, and gives the status.
pub fn tell_stop<E: Sink>(code: u16, name: &[u8], errors: &mut E) -> u8
    ensures status { result ≡ OUTSIDE }
    ensures line { IsWritten (E.state errors.old) (E.state errors.new)
        (stopped_line code name.now) }
{
    let mut digits = Buffer::new();
    let code = digits.format(code);
    let head: &[u8] = b"portfarm: stopped ";
    let _written = write_pieces(errors, &[head, code.as_bytes(), b" lane ", name, b"\n"]);
    OUTSIDE
}
