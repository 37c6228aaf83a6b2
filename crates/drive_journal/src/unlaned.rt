//! The lines of a journal that are of no lane: when an entry was written, and which run goes on.

ghost use Rattle.std.specs.Prelude.{◌≡◌, is_err};
ghost use Rattle.std.specs.Option.{option_map};
ghost use Rattle.drive_journal.specs.Entries.{end_text, next_of, time_of, time_text};
ghost use Rattle.drive_journal.specs.Laws.{IsEndReadAgain, IsTimeReadAgain};
ghost use Rattle.report_sink.specs.Sinks.{IsWritten};

use deb_text::{next_word, read_number};
use itoa::Buffer;
use report_sink::{Sink, WriteFailed, write_pieces};

/// Writes the line that tells how many seconds after the run's beginning the next entry is written.
///
/// # Errors
///
/// [`WriteFailed`] where the sink has failed. It has then taken a first part of the line.
#[tactic(auto, using(crate::proofs::AgainUnlaned::time_is_read_again))]
pub fn write_time<S: Sink>(out: &mut S, seconds: u64) -> Result<(), WriteFailed>
    ensures written { IsWritten (S.state out.old) (S.state out.new) (time_text seconds) }
    ensures told { is_err result ≡ (S.state out.new).failed }
    ensures again { IsTimeReadAgain seconds }
{
    let mut digits = Buffer::new();
    let number = digits.format(seconds);
    write_pieces(out, &[b"at ", number.as_bytes(), b"\n"])
}

/// Reads the seconds that a line tells, if it tells a time: 1 to 15 digits.
#[tactic(auto, unfolding(crate::specs::Entries::time_of))]
pub fn read_time(line: &[u8]) -> Option<u64>
    ensures { result ≡ time_of line.now }
{
    let (verb, text) = next_word(line)?;
    let (number, text) = next_word(text)?;
    if next_word(text).is_some() || verb != b"at".as_slice() {
        return None;
    }
    read_number(number)
}

/// Writes the line that ends a journal: the run of this name goes on from there.
///
/// # Errors
///
/// [`WriteFailed`] where the sink has failed. It has then taken a first part of the line.
#[tactic(auto, using(crate::proofs::AgainUnlaned::end_is_read_again))]
pub fn write_end<S: Sink>(out: &mut S, run: &[u8]) -> Result<(), WriteFailed>
    ensures written { IsWritten (S.state out.old) (S.state out.new) (end_text run.now) }
    ensures told { is_err result ≡ (S.state out.new).failed }
    ensures again { IsEndReadAgain run.now }
{
    write_pieces(out, &[b"end ", run, b"\n"])
}

/// Reads the name of the run that goes on, if a line ends a journal.
#[tactic(auto, unfolding(crate::specs::Entries::next_of))]
pub fn read_end(line: &[u8]) -> Option<&[u8]>
    ensures { option_map (λ run. run.now) result ≡ next_of line.now }
{
    let (verb, text) = next_word(line)?;
    let (run, text) = next_word(text)?;
    if next_word(text).is_some() || verb != b"end".as_slice() {
        return None;
    }
    Some(run)
}
