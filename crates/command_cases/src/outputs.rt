//! Outputs that take few bytes at a time, or fail.

use std::alloc::Global;
use std::io::{self, ErrorKind, Write};

/// What a write does that fails.
#[derive(Clone, Copy)]
pub enum Failure {
    Error,
    /// It takes no byte.
    Nothing,
}

/// How an output takes bytes: so many at a time at most, until so many writes are done, and then
/// each write fails.
#[derive(Clone, Copy)]
pub struct Manner {
    pub most: usize,
    pub writes: u64,
    pub failure: Failure,
}

impl Manner {
    /// Takes all bytes of each write.
    pub const WHOLE: Manner = Manner {
        most: usize::MAX,
        writes: u64::MAX,
        failure: Failure::Error,
    };

    /// Takes one byte of each write.
    pub const NARROW: Manner = Manner {
        most: 1,
        ..Manner::WHOLE
    };

    /// Fails behind so many writes.
    pub fn stops_after(writes: u64, failure: Failure) -> Manner {
        Manner {
            writes,
            failure,
            ..Manner::WHOLE
        }
    }
}

/// Keeps the bytes that it takes.
#[derive(Drop)]
pub struct Output {
    taken: Vec<u8>,
    manner: Manner,
}

impl Output {
    /// An output without a byte, that takes bytes in this manner.
    pub fn new(alloc: Global, manner: Manner) -> Output {
        Output {
            taken: Vec::new(alloc),
            manner,
        }
    }

    /// The bytes that it took.
    pub fn into_taken(self) -> Vec<u8> {
        self.taken
    }
}

impl Write for Output {
    fn write(&mut self, buf: &[u8]) -> io::Result<usize> {
        if self.manner.writes == 0 {
            return match self.manner.failure {
                Failure::Error => Err(io::Error::from(ErrorKind::BrokenPipe)),
                Failure::Nothing => Ok(0),
            };
        }
        self.manner.writes -= 1;
        let count = buf.len().min(self.manner.most);
        self.taken.extend_from_slice(&buf[..count])?;
        Ok(count)
    }

    fn flush(&mut self) -> io::Result<()> {
        Ok(())
    }
}
