//! The streams and the journal of a drive in memory.

ghost use Rattle.std.specs.Prelude.{◌≤◌, length};

use crate::stage::Stage;
use deb_text::next_line;
use drive_journal::{Journal, JournalFile};
use report_sink::{Sink, SinkFailed};
use std::alloc::Global;
use std::io::{self, ErrorKind, Read, Write};
use std::sync::Wait;

/// A text up to its first line end, and with it.
pub fn first_line(text: &[u8]) -> &[u8]
    ensures { length result.now ≤ length text.now }
{
    match next_line(text) {
        Some((_, behind)) => &text[..text.len() - behind.len()],
        None => text,
    }
}

/// The output, which a driver reads. It takes a line at a time, and fails behind so many.
#[derive(Drop)]
pub struct StageOutput<'s, 'c, R: Wait> {
    pub stage: &'s Stage<'c, R>,
    pub most: usize,
}

impl<R: Wait> Write for StageOutput<'_, '_, R> {
    fn write(&mut self, buf: &[u8]) -> io::Result<usize> {
        let line = first_line(buf);
        let mut state = self.stage.state.lock(self.stage.rt);
        if state.lines >= self.most {
            return Err(io::Error::from(ErrorKind::BrokenPipe));
        }
        if !state.is_dead {
            state.written.extend_from_slice(line)?;
        }
        if line.ends_with(b"\n") {
            state.lines = state.lines.saturating_add(1);
            self.stage.changed.notify_all();
        }
        Ok(line.len())
    }

    fn flush(&mut self) -> io::Result<()> {
        Ok(())
    }
}

/// The input, which a driver writes.
#[derive(Drop)]
pub struct StageInput<'s, 'c, R: Wait> {
    pub stage: &'s Stage<'c, R>,
}

impl<R: Wait> Read for StageInput<'_, '_, R> {
    fn read(&mut self, buf: &mut [u8]) -> io::Result<usize> {
        let text = self.stage.say()?;
        let mut rest = text.as_slice();
        rest.read(buf)
    }
}

/// The journal. It fails behind so many lines.
#[derive(Drop)]
pub struct StageJournal<'s, 'c, R: Wait> {
    pub stage: &'s Stage<'c, R>,
    pub most: usize,
    pub has_failed: bool,
    /// Whether it was kept behind the last write.
    pub is_kept: bool,
}

impl<R: Wait> Sink for StageJournal<'_, '_, R> {
    ghost use Rattle.std.specs.Prelude.{None};

    ghost state = { λ j. record { contents = None; failed = j.has_failed } };

    fn write(&mut self, bytes: &[u8]) -> Result<usize, SinkFailed> {
        self.is_kept = false;
        let mut state = self.stage.state.lock(self.stage.rt);
        if state.is_dead {
            return Ok(bytes.len());
        }
        if self.most == 0 || state.journal.extend_from_slice(bytes).is_err() {
            self.has_failed = true;
            return Err(SinkFailed);
        }
        if bytes.ends_with(b"\n") {
            self.most -= 1;
        }
        Ok(bytes.len())
    }

    fn has_failed(&self) -> bool {
        self.has_failed
    }
}

impl<R: Wait> Journal for StageJournal<'_, '_, R> {
    ghost is_kept = { λ j. j.is_kept };

    fn keep(&mut self) -> bool {
        let mut state = self.stage.state.lock(self.stage.rt);
        state.kept = state.journal.len();
        state.keeps = state.keeps.saturating_add(1);
        self.stage.changed.notify_all();
        self.is_kept = true;
        true
    }
}

impl<R: Wait> JournalFile for StageJournal<'_, '_, R> {
    fn read(&mut self, alloc: Global) -> io::Result<Vec<u8>> {
        let state = self.stage.state.lock(self.stage.rt);
        Ok(Vec::from_slice(alloc, &state.journal)?)
    }

    fn cut(&mut self, count: usize) -> bool {
        let mut state = self.stage.state.lock(self.stage.rt);
        state.journal.truncate(count);
        state.kept = count;
        self.is_kept = true;
        true
    }

    fn keep_name(&mut self) -> bool {
        true
    }
}
