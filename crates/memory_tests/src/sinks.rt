//! What becomes of texts that are written to writers that fail, and to slow ones.

use report_sink::{
    Sink, SinkFailed, WRITE_FAILED, WriteFailed, WriteSink, write_pieces, write_text,
};
use std::alloc::{AllocError, Global};
use std::io::{self, ErrorKind, Write};

/// What a write does that fails.
#[derive(Clone, Copy, Debug)]
enum Failure {
    Error,
    Nothing,
}

/// A writer of which each write takes at most so many bytes, and which fails from some write on.
#[derive(Drop)]
struct Narrow {
    taken: Vec<u8>,
    most: usize,
    writes_left: usize,
    failure: Failure,
    failures: usize,
}

impl Narrow {
    fn new(alloc: Global, most: usize, writes_left: usize, failure: Failure) -> Narrow {
        Narrow {
            taken: Vec::new(alloc),
            most,
            writes_left,
            failure,
            failures: 0,
        }
    }
}

impl Write for Narrow {
    fn write(&mut self, buf: &[u8]) -> io::Result<usize> {
        if self.writes_left == 0 {
            self.failures = self.failures.saturating_add(1);
            return match self.failure {
                Failure::Error => Err(io::Error::from(ErrorKind::BrokenPipe)),
                Failure::Nothing => Ok(0),
            };
        }
        self.writes_left -= 1;
        let count = buf.len().min(self.most);
        self.taken.extend_from_slice(&buf[..count])?;
        Ok(count)
    }

    fn flush(&mut self) -> io::Result<()> {
        Ok(())
    }
}

/// Three pieces, of which one is empty, that are `abcd` together.
const PIECES: [&[u8]; 3] = [b"abc", b"", b"d"];

#[test]
fn writes_a_first_part(rt: HostRuntime) {
    // the most bytes of a write, the writes before the first that fails, the answer, what is taken
    let rows: [(usize, usize, Result<(), WriteFailed>, &str); 9] = [
        (8, 0, Err(WriteFailed), ""),
        (8, 1, Err(WriteFailed), "abc"),
        (8, 2, Ok(()), "abcd"),
        (2, 2, Err(WriteFailed), "abc"),
        (2, 3, Ok(()), "abcd"),
        (1, 1, Err(WriteFailed), "a"),
        (1, 3, Err(WriteFailed), "abc"),
        (1, 4, Ok(()), "abcd"),
        (0, 9, Err(WriteFailed), ""),
    ];
    for failure in [Failure::Error, Failure::Nothing] {
        for (most, writes, want, taken) in rows {
            let mut out = WriteSink::new(Narrow::new(rt.alloc(), most, writes, failure));
            let found = write_pieces(&mut out, &PIECES);
            assert_eq!(rt; found, want, "{writes} of {most} bytes, then {failure:?}");
            assert_eq!(rt; out.has_failed(), want.is_err());
            let writer = out.into_inner();
            assert!(rt;
                writer.taken.as_slice() == taken.as_bytes(),
                "{writes} of {most} bytes"
            );
        }
    }
}

/// Also a text of no bytes.
#[test]
fn writes_nothing_to_a_sink_that_had_failed(rt: HostRuntime) {
    let mut out = WriteSink::new(Narrow::new(rt.alloc(), 8, 0, Failure::Error));
    assert_eq!(rt; write_text(&mut out, b""), Ok(()));
    assert_eq!(rt; write_text(&mut out, b"a"), Err(WriteFailed));
    for text in [b"".as_slice(), b"b"] {
        assert_eq!(rt; write_text(&mut out, text), Err(WriteFailed));
        assert_eq!(rt; write_pieces(&mut out, &[text]), Err(WriteFailed));
    }
    let writer = out.into_inner();
    assert_eq!(rt; writer.failures, 1);
    assert_eq!(rt; writer.taken.len(), 0);
}

#[test]
fn fails_for_good(rt: HostRuntime) {
    let mut out = WriteSink::new(Narrow::new(rt.alloc(), 8, 1, Failure::Nothing));
    assert_eq!(rt; out.write(b""), Ok(0));
    assert!(rt; !out.has_failed());
    assert_eq!(rt; out.write(b"a"), Err(SinkFailed));
    assert!(rt; out.has_failed());
}

#[test]
fn has_a_code_and_a_message(rt: HostRuntime) -> Result<(), AllocError> {
    assert_eq!(rt; WriteFailed.code(), 601);
    assert_eq!(rt; WRITE_FAILED, 601);
    assert_eq!(rt; WriteFailed.to_string(rt.alloc())?.as_str(), "write failed");
    Ok(())
}
