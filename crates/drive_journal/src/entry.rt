//! Entries, and their lines.

ghost use Rattle.std.specs.Prelude.{◌≡◌, is_err};
ghost use Rattle.drive_journal.specs.Entries.{head_of, more_of, noted_text, verb_of};
ghost use Rattle.drive_journal.specs.Laws.{IsReadAgain};
ghost use Rattle.drive_journal.specs.Said.{note_in, noted_in};
ghost use Rattle.report_sink.specs.Sinks.{IsWritten};

use itoa::Buffer;
use report_sink::{Sink, WriteFailed, write_pieces, write_text};

/// What an entry says of an instruction.
#[derive(Clone, Copy)]
pub enum Said<'t> {
    /// It is asked for.
    Asked,
    /// The unpack has picked this version of this name, and that is asked for.
    Picked { name: &'t [u8], version: &'t [u8] },
    /// The `when` has taken the first branch, or the second one.
    Branched(bool),
    /// It is done.
    Done,
    /// It has failed, and stays open.
    Failed,
    /// What has failed is asked for once more.
    AskedAgain,
}

/// An entry: the lane by its name, and the number of its instruction, counted from 1; 0 stands for
/// the lane's chroot.
#[derive(Clone, Copy)]
pub struct Entry<'t> {
    pub lane: &'t [u8],
    pub number: u64,
    pub said: Said<'t>,
}

fn verb_of<'t>(said: Said<'t>) -> &'t [u8]
    ensures { result.now ≡ verb_of (note_in said.entry) }
{
    match said {
        Said::Asked => b"ask",
        Said::Picked { .. } => b"pick",
        Said::Branched(_) => b"branch",
        Said::Done => b"done",
        Said::Failed => b"failed",
        Said::AskedAgain => b"again",
    }
}

fn write_more<S: Sink>(out: &mut S, said: Said<'_>) -> Result<(), WriteFailed>
    ensures written { IsWritten (S.state out.old) (S.state out.new) (more_of (note_in said.entry)) }
    ensures told { is_err result ≡ (S.state out.new).failed }
{
    match said {
        Said::Picked { name, version } => write_pieces(out, &[b" ", name, b" ", version]),
        Said::Branched(true) => write_text(out, b" first"),
        Said::Branched(false) => write_text(out, b" second"),
        _ => write_text(out, b""),
    }
}

fn write_head<S: Sink>(out: &mut S, entry: Entry<'_>) -> Result<(), WriteFailed>
    ensures written { IsWritten (S.state out.old) (S.state out.new)
        (head_of (noted_in entry.entry)) }
    ensures told { is_err result ≡ (S.state out.new).failed }
{
    let mut digits = Buffer::new();
    let number = digits.format(entry.number);
    let verb = verb_of(entry.said);
    write_pieces(out, &[verb, b" ", entry.lane, b" ", number.as_bytes()])
}

/// Writes the line of an entry: its verb, the lane's name, the number of the instruction, and what
/// it says more. It is read again as that entry.
///
/// # Errors
///
/// [`WriteFailed`] where the sink has failed. It has then taken a first part of the line.
pub fn write_entry<S: Sink>(out: &mut S, entry: Entry<'_>) -> Result<(), WriteFailed>
    ensures written { IsWritten (S.state out.old) (S.state out.new)
        (noted_text (noted_in entry.entry)) }
    ensures told { is_err result ≡ (S.state out.new).failed }
    ensures again { IsReadAgain (noted_in entry.entry) }
{
    write_head(out, entry)?;
    write_more(out, entry.said)?;
    write_text(out, b"\n")
}
