//! The bytes of a reader up to a bound, put behind each other piece by piece; and why a file cannot be

ghost use Rattle.std.specs.Prelude.{◌≡◌, ◌<◌, ◌++◌, false, take, length, IfOk, OnOk, IfSome};
ghost use Rattle.std.specs.Io.KnownBytes.{IsAtEnd};
ghost use Rattle.farm_answers.specs.Reading.{IsReadOn};

use std::alloc::{AllocError, Global};
use std::io::{self, ErrorKind, Read};

/// How many bytes are read at once.
const PIECE: usize = 65_536;

/// Room for so many bytes.
fn room(alloc: Global, count: usize) -> Result<Vec<u8>, AllocError>
    ensures { IfOk result (λ piece. length piece.items ≡ count) }
{
    Vec::from_elem(alloc, 0, count)
}

/// Reads once, puts what was read behind other bytes, and tells whether there may be more. A read
/// that a signal interrupts has read nothing.
fn read_piece<R: Read>(reader: &mut R, piece: &mut [u8], read: &mut Vec<u8>) -> io::Result<bool>
    requires { 0 < length piece.old }
    ensures long { length piece.new ≡ length piece.old }
    ensures read { OnOk result (IsReadOn (R.remaining reader.old) (R.remaining reader.new)
        read.old.items read.new.items) }
    ensures end { IfOk result (λ more. more ≡ false → IsAtEnd (R.remaining reader.new)) }
{
    match reader.read(piece) {
        Ok(0) => Ok(false),
        Ok(count) => {
            read.extend_from_slice(&piece[..count])?;
            Ok(true)
        }
        Err(error) if error.kind() == ErrorKind::Interrupted => Ok(true),
        Err(error) => Err(error),
    }
}

/// Puts all that a reader has behind other bytes.
#[tactic(auto, using(crate::proofs::ReadingLaws::nothing_read, crate::proofs::ReadingLaws::read_behind, crate::proofs::ReadingLaws::all_read))]
fn read_pieces<R: Read>(reader: &mut R, piece: &mut [u8], read: &mut Vec<u8>) -> io::Result<()>
    requires { 0 < length piece.old }
    ensures { OnOk result (IfSome (R.remaining reader.old) (λ bytes.
        read.new.items ≡ read.old.items ++ bytes)) }
{
    for _ in 0..u64::MAX {
        if !read_piece(reader, piece, read)? {
            return Ok(());
        }
    }
    Err(io::Error::from(ErrorKind::Other))
}

/// Reads a reader's bytes, at most `most` of them: all, where it has no more.
///
/// # Errors
///
/// The reader's own, but for a read that a signal interrupts, which is made again; one of the kind
/// [`ErrorKind::OutOfMemory`] where memory is refused.
pub fn read_up_to<R: Read + Drop>(alloc: Global, reader: R, most: u32) -> io::Result<Vec<u8>>
    ensures { IfOk result (λ read. IfSome (R.remaining reader) (λ bytes.
        read.items ≡ take most bytes)) }
{
    let mut reader = reader.take(u64::from(most));
    let mut piece = room(alloc, PIECE)?;
    let mut read = Vec::new(alloc);
    read_pieces(&mut reader, &mut piece, &mut read)?;
    Ok(read)
}
