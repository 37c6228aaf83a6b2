//! What ends the making of texts outside of these, and what is said of it.

ghost use Rattle.std.specs.Prelude.{◌≡◌};

use crate::making::Maker;
use drive_answers::tell_misfit;
use farm_answers::Unreadable;
use report_sink::{Sink, WriteFailed, write_pieces, write_text};
use shown_text::write_escaped;
use std::alloc::AllocError;
use std::io::{self, ErrorKind};

/// The status where the texts are made.
pub const FINE: u8 = 0;

/// The status of a refusal.
pub const REFUSED: u8 = 1;

/// The status where something outside of the texts fails.
pub const OUTSIDE: u8 = 3;

/// What ends the making of texts outside of these: a file that cannot be read, and why; one that the
/// command has not made; one that cannot be written; one that is there already; a journal that is too
/// long, that has ended since another run goes on from it, or that does not fit from a line on; texts
/// that are not those that were asked for; want of memory; or an answer that cannot be written.
#[derive(Debug, Drop)]
pub enum MakingFault {
    CannotRead(Vec<u8>, Unreadable),
    NotMade(Vec<u8>, Maker),
    CannotWrite(Vec<u8>),
    Exists(Vec<u8>),
    TooLong(Vec<u8>),
    Ended(Vec<u8>),
    Misfit(u64),
    Wrong,
    OutOfMemory,
    WriteFailed,
}

impl From<AllocError> for MakingFault {
    fn from(_error: AllocError) -> MakingFault {
        MakingFault::OutOfMemory
    }
}

impl From<WriteFailed> for MakingFault {
    fn from(_error: WriteFailed) -> MakingFault {
        MakingFault::WriteFailed
    }
}

/// That a file of a name cannot be read.
pub fn unread(error: &io::Error, name: Result<Vec<u8>, AllocError>) -> MakingFault {
    match name {
        Ok(name) if error.kind() != ErrorKind::OutOfMemory => {
            MakingFault::CannotRead(name, Unreadable::of(error.kind()))
        }
        _ => MakingFault::OutOfMemory,
    }
}

/// That a file of a name cannot be written.
pub fn unwritten(error: &io::Error, name: Result<Vec<u8>, AllocError>) -> MakingFault {
    let Ok(name) = name else {
        return MakingFault::OutOfMemory;
    };
    match error.kind() {
        ErrorKind::OutOfMemory => MakingFault::OutOfMemory,
        ErrorKind::AlreadyExists => MakingFault::Exists(name),
        _ => MakingFault::CannotWrite(name),
    }
}

fn write_line<E: Sink>(
    errors: &mut E,
    front: &[u8],
    name: &[u8],
    end: &[u8],
) -> Result<(), WriteFailed> {
    write_text(errors, front)?;
    write_escaped(errors, name)?;
    write_pieces(errors, &[end, b"\n"])
}

fn write_not_made<E: Sink>(errors: &mut E, name: &[u8], maker: Maker) -> Result<(), WriteFailed> {
    write_text(errors, b"portfarm: ")?;
    write_escaped(errors, name)?;
    let front: &[u8] = b": not made by ";
    write_pieces(errors, &[front, maker.words(), b"; --force replaces it\n"])
}

/// Writes what ended the making of texts.
fn write_fault<E: Sink>(errors: &mut E, fault: &MakingFault) -> Result<(), WriteFailed> {
    match fault {
        MakingFault::CannotRead(name, why) => {
            write_line(errors, b"portfarm: cannot read ", name, why.words())
        }
        MakingFault::NotMade(name, maker) => write_not_made(errors, name, *maker),
        MakingFault::CannotWrite(name) => {
            write_line(errors, b"portfarm: cannot write ", name, b"")
        }
        MakingFault::Exists(name) => {
            write_line(errors, b"portfarm: cannot write ", name, b": File exists")
        }
        MakingFault::TooLong(name) => {
            write_line(errors, b"portfarm: ", name, b": over 67,108,864 bytes")
        }
        MakingFault::Ended(run) => write_line(
            errors,
            b"portfarm: journal is ended: ",
            run,
            b" goes on from it",
        ),
        MakingFault::Misfit(line) => {
            let _told = tell_misfit(*line, errors);
            Ok(())
        }
        MakingFault::Wrong => write_text(
            errors,
            b"portfarm: the texts that were made are not those that were asked for\n",
        ),
        MakingFault::OutOfMemory => write_text(errors, b"portfarm: out of memory\n"),
        MakingFault::WriteFailed => write_text(errors, b"portfarm: write failed\n"),
    }
}

/// Says on the error output that recipes were forbidden, and that there was no choice.
pub fn tell_no_choice<E: Sink>(errors: &mut E) {
    let _written = write_text(
        errors,
        b"portfarm: the wish leaves no choice, so --forbid has no effect\n",
    );
}

/// Says on the error output what ended the making of texts, and gives the status.
pub fn tell<E: Sink>(fault: &MakingFault, errors: &mut E) -> u8
    ensures { result ≡ OUTSIDE }
{
    let _written = write_fault(errors, fault);
    OUTSIDE
}
