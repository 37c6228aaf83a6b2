//! The answers of a driver.

ghost use Rattle.std.specs.Prelude.{◌≡◌, [], IfOk, IfSome};
ghost use Rattle.std.specs.Io.BufRead.{take_through};
ghost use Rattle.drive_protocol.specs.HeardLine.{heard};

use crate::{Answer, read_answer};
use plan_reader::Plan;
use std::alloc::Global;
use std::io::{self, BufRead};

/// What is heard of a driver.
#[derive(Clone, Copy)]
pub enum Heard {
    /// A line of it.
    Line(Answer),
    /// No more comes.
    End,
}

/// Where answers come from, room for a line, and how many whole lines the reader has at hand.
#[derive(Drop)]
pub struct Input<I> {
    reader: I,
    line: Vec<u8>,
    at_hand: usize,
}

/// How many line ends a reader has at hand, once it has something. It takes nothing away.
fn lines_at_hand<I: BufRead>(reader: &mut I) -> usize {
    match reader.fill_buf() {
        Ok(bytes) => count_lines(bytes),
        Err(_) => 0,
    }
}

fn count_lines(bytes: &[u8]) -> usize {
    let mut count = 0usize;
    for byte in bytes {
        if *byte == b'\n' {
            count = count.saturating_add(1);
        }
    }
    count
}

/// Reads one line into an empty buffer, and says what is heard.
///
/// # Errors
///
/// Where a read fails, or memory is refused.
fn hear<I: BufRead>(reader: &mut I, line: &mut Vec<u8>, plan: &Plan) -> io::Result<Heard>
    requires empty { line.old.items ≡ [] }
    ensures { IfOk result (λ said. IfSome (I.remaining reader.old) (λ bytes.
        said ≡ heard plan.now.lanes (take_through 10 bytes))) }
{
    reader.read_until(b'\n', line)?;
    match line.as_slice() {
        [front @ .., b'\n'] => Ok(Heard::Line(read_answer(plan, front))),
        _ => Ok(Heard::End),
    }
}

impl<I: BufRead> Input<I> {
    /// The answers that this reader gives.
    pub fn new(alloc: Global, reader: I) -> Input<I> {
        Input {
            reader,
            line: Vec::new(alloc),
            at_hand: 0,
        }
    }

    /// Tells whether the next line is at hand, so that nobody waits for it.
    pub fn has_line(&self) -> bool {
        self.at_hand > 0
    }

    /// Reads the next line, and says what is heard. What stands behind the last line end says
    /// nothing: it may be the first part of another answer. A read that fails, and a line for which
    /// memory is refused, are the end.
    pub fn next(&mut self, plan: &Plan) -> Heard {
        self.line.clear();
        if self.at_hand == 0 {
            self.at_hand = lines_at_hand(&mut self.reader);
        }
        self.at_hand = self.at_hand.saturating_sub(1);
        hear(&mut self.reader, &mut self.line, plan).unwrap_or(Heard::End)
    }
}
