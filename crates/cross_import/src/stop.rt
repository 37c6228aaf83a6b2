//! Why there is no farm of two architectures.

ghost use Rattle.std.specs.Prelude.{IfOk};
ghost use Rattle.cross_import.specs.CrossImport.{HasNone};

use cross_index::{IndexStop, Refusal};
use deb_text::{Fault, push_pieces};
use import_farm::{Imported, Inputs, Refusal as ImportRefusal, Tell, push_number};
use std::alloc::{AllocError, AllocFailed, Global};

/// Why there is no farm: a refusal of the text of a name; a fault in a text that was made, with the
/// line that it is in; other lines of a refusal; an error of this program; want of memory.
#[derive(Drop)]
pub enum Stop {
    Refused(Vec<u8>, Refusal),
    Made(Fault, Vec<u8>),
    Told(Vec<u8>),
    Wrong,
    OutOfMemory,
}

impl From<AllocError> for Stop {
    fn from(_error: AllocError) -> Stop {
        Stop::OutOfMemory
    }
}

impl<T: Drop> From<AllocFailed<T>> for Stop {
    fn from(_error: AllocFailed<T>) -> Stop {
        Stop::OutOfMemory
    }
}

/// The stop of a text of a name.
pub fn stop_in(alloc: Global, name: &[u8], stop: IndexStop) -> Stop {
    match stop {
        IndexStop::OutOfMemory => Stop::OutOfMemory,
        IndexStop::Unlike(_) => Stop::Wrong,
        IndexStop::Refused(refusal) => match Vec::from_slice(alloc, name) {
            Ok(name) => Stop::Refused(name, refusal),
            Err(AllocError) => Stop::OutOfMemory,
        },
    }
}

/// A fault of a text of a name.
pub fn fault_in(alloc: Global, name: &[u8], fault: Fault) -> Stop {
    if fault == Fault::MEMORY {
        return Stop::OutOfMemory;
    }
    let refusal = Refusal {
        line: fault.line,
        code: fault.code,
        about: Vec::new(alloc),
    };
    stop_in(alloc, name, IndexStop::Refused(refusal))
}

/// A fault of a text that was made, with the line that it is in.
pub fn made_fault(alloc: Global, fault: Fault, line: &[u8]) -> Stop {
    if fault == Fault::MEMORY {
        return Stop::OutOfMemory;
    }
    match Vec::from_slice(alloc, line) {
        Ok(line) => Stop::Made(fault, line),
        Err(AllocError) => Stop::OutOfMemory,
    }
}

/// The lines of a refusal.
fn refusal_lines(alloc: Global, name: &[u8], refusal: &Refusal) -> Result<Vec<u8>, AllocError> {
    let mut lines = Vec::from_slice(alloc, b"refused ")?;
    push_number(&mut lines, u64::from(refusal.code))?;
    push_pieces(&mut lines, &[b" ", name, b" line "])?;
    push_number(&mut lines, u64::from(refusal.line))?;
    lines.extend_from_slice(b"\n")?;
    if !refusal.about.is_empty() {
        push_pieces(&mut lines, &[b"  ", &refusal.about, b"\n"])?;
    }
    Ok(lines)
}

/// What an import comes to that stops so.
pub fn stopped<T: Tell>(alloc: Global, inputs: Inputs, stop: Stop) -> Result<Imported, AllocError>
    ensures { IfOk result HasNone }
{
    match stop {
        Stop::Refused(name, refusal) => {
            Ok(Imported::Refused(refusal_lines(alloc, &name, &refusal)?))
        }
        Stop::Made(fault, line) => {
            let refusal = ImportRefusal::Made(fault, line);
            Ok(Imported::Refused(T::refusal_lines(alloc, inputs, &refusal)?))
        }
        Stop::Told(lines) => Ok(Imported::Refused(lines)),
        Stop::Wrong => Ok(Imported::Wrong),
        Stop::OutOfMemory => Err(AllocError),
    }
}
