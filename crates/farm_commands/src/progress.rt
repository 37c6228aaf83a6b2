//! How far an import has come, on a terminal.

use crate::folder::Folder;
use import_farm::Watch;
use itoa::Buffer;
use report_sink::{Sink, WriteFailed, write_text};
use shown_text::write_escaped;

/// How long nothing is told, in milliseconds.
const QUIET: u64 = 500;

/// What takes a line of a terminal away.
const CLEAR: &[u8] = b"\r\x1b[K";

/// Tells on the error output how far the reading of indexes has come, where that is a terminal and
/// the work takes longer than a moment.
#[derive(Drop)]
pub struct Progress<'a, F, E> {
    folder: &'a F,
    errors: &'a mut E,
    is_watched: bool,
    begun: u64,
    /// What was heard last; more than all, where nothing was.
    percent: usize,
    has_told: bool,
}

/// So many of so many, of a hundred.
fn percent_of(done: usize, whole: usize) -> usize {
    if whole == 0 {
        return 0;
    }
    done.saturating_mul(100) / whole
}

fn write_line<E: Sink>(errors: &mut E, name: &str, percent: usize) -> Result<(), WriteFailed> {
    write_text(errors, CLEAR)?;
    write_text(errors, b"reading ")?;
    write_escaped(errors, name.as_bytes())?;
    write_text(errors, b" ")?;
    write_text(errors, Buffer::new().format(percent as u64).as_bytes())?;
    write_text(errors, b" %")
}

impl<'a, F: Folder, E: Sink> Progress<'a, F, E> {
    /// Nothing was heard.
    pub fn new(folder: &'a F, errors: &'a mut E) -> Progress<'a, F, E> {
        Progress {
            folder,
            errors,
            is_watched: folder.has_watcher(),
            begun: folder.milliseconds(),
            percent: usize::MAX,
            has_told: false,
        }
    }

    /// Takes what was told away.
    pub fn clear(&mut self) {
        if self.has_told {
            let _written = write_text(self.errors, CLEAR);
        }
    }
}

impl<F: Folder, E: Sink> Watch for Progress<'_, F, E> {
    fn reads(&mut self, name: &str, done: usize, whole: usize) {
        let percent = percent_of(done, whole);
        if !self.is_watched || percent == self.percent {
            return;
        }
        self.percent = percent;
        if self.folder.milliseconds().saturating_sub(self.begun) < QUIET {
            return;
        }
        self.has_told = true;
        let _written = write_line(self.errors, name, percent);
    }
}
