//! Where the texts come from.

ghost use Rattle.std.specs.Prelude.{◌≡◌, ◌≤◌, ℕ, List, Option, IfOk, IfErr, IfSome, Some, take, vec_len};
ghost use Rattle.farm_answers.specs.Answers.{IsReadFault};
ghost use Rattle.farm_answers.specs.Files.{IsCalled, IsInputName, IsUnreadBy, named};
ghost use Rattle.std.specs.IoError.{error_kind};

use crate::Unreadable;
use crate::fault::{OutsideFault, Unread};
use command_line::INPUT;
use std::alloc::Global;
use std::io::{self, ErrorKind, Read};

/// How many bytes of a file are read at most: one more than a text may have.
pub const MOST_FILE: u32 = 67_108_865;

/// The bytes of standard input that are read at most.
pub const MOST_INPUT: u32 = 300_000_000;

/// Where the texts come from: files by their names, and standard input.
pub trait Source {
    // The bytes of the file of a name, and those of standard input, where they are known.
    ghost held: { Self → List ℕ → Option (List ℕ) };

    ghost given: { Self → Option (List ℕ) };

    type File: Read + Drop;

    type Input: Read + Drop;

    /// Opens the file of this name.
    ///
    /// # Errors
    ///
    /// Where it cannot be opened.
    fn open(&self, path: &str) -> io::Result<Self::File>
        ensures { IfOk result (λ file. IfSome (held self.now path.now)
            (λ bytes. Self.File.remaining file ≡ Some bytes)) };

    /// Tells whether the error output is watched, as a terminal is: runs are then told of there
    /// while they go on.
    fn is_watched(&self) -> bool;

    /// Standard input.
    fn input(&self) -> Self::Input
        ensures { IfSome (given self.now) (λ bytes. Self.Input.remaining result ≡ Some bytes) };
}

/// What an error comes to that is met at the file of a name.
fn unread<'a>(error: &io::Error, name: &'a str) -> OutsideFault<'a>
    ensures cause { IsUnreadBy (error_kind error.now) name.entry.now result }
    ensures fault { IsReadFault (λ told. told ≡ name.entry.now) result }
{
    match error.kind() {
        ErrorKind::OutOfMemory => OutsideFault::OutOfMemory,
        kind => OutsideFault::CannotRead(Unread {
            name,
            why: Unreadable::of(kind),
        }),
    }
}

/// Reads the first bytes, at most `most`.
fn read_up_to<'a, R: Read + Drop>(
    alloc: Global,
    reader: R,
    most: u32,
    name: &'a str,
) -> Result<Vec<u8>, OutsideFault<'a>>
    ensures bytes { IfOk result (λ read. IfSome (R.remaining reader) (λ bytes.
        read.items ≡ take most bytes)) }
    ensures fault { IfErr result (IsReadFault (λ told. told ≡ name.entry.now)) }
{
    match crate::read_up_to(alloc, reader, most) {
        Ok(read) => Ok(read),
        Err(error) => Err(unread(&error, name)),
    }
}

/// Reads a file, up to [`MOST_FILE`] bytes of it, or standard input where its name is [`INPUT`].
///
/// # Errors
///
/// [`OutsideFault::OutOfMemory`] where memory is refused, and [`OutsideFault::CannotRead`] of the
/// name where the file cannot be opened or a read fails.
pub fn read_file<'a, S: Source>(
    alloc: Global,
    source: &S,
    path: &'a str,
) -> Result<Vec<u8>, OutsideFault<'a>>
    ensures bytes { IfOk result (λ read.
        IfSome (named (S.held source.now) (S.given source.now) path.entry.now) (λ bytes.
        read.items ≡ take MOST_FILE bytes)) }
    ensures fault { IfErr result (IsReadFault (IsCalled path.entry.now)) }
{
    if path.as_bytes() == INPUT.as_bytes() {
        return read_up_to(alloc, source.input(), MOST_FILE, INPUT_NAME);
    }
    match source.open(path) {
        Ok(file) => read_up_to(alloc, file, MOST_FILE, path),
        Err(error) => Err(unread(&error, path)),
    }
}

/// Reads standard input, at most [`MOST_INPUT`] bytes.
///
/// # Errors
///
/// [`OutsideFault::OutOfMemory`] where memory is refused, and [`OutsideFault::CannotRead`] where a
/// read fails or there are more bytes.
pub fn read_input<'a, S: Source>(alloc: Global, source: &S) -> Result<Vec<u8>, OutsideFault<'a>>
    ensures bytes { IfOk result (λ read. IfSome (S.given source.now) (λ bytes.
        read.items ≡ bytes)) }
    ensures most { IfOk result (λ read. vec_len read ≤ MOST_INPUT) }
    ensures fault { IfErr result (IsReadFault IsInputName) }
{
    let read = read_up_to(alloc, source.input(), MOST_INPUT + 1, INPUT_NAME)?;
    if read.len() > MOST_INPUT as usize {
        return Err(OutsideFault::CannotRead(Unread {
            name: INPUT_NAME,
            why: Unreadable::TooLong,
        }));
    }
    Ok(read)
}

/// What standard input is called.
const INPUT_NAME: &str = "standard input";
