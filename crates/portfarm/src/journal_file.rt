//! A journal in a file of the machine.

use drive_journal::{Journal, JournalFile, OpenFault};
use report_sink::{Sink, SinkFailed, WriteSink};
use std::alloc::Global;
use std::fs::{self, File, OpenOptions, TryLockError};
use std::io::{self, ErrorKind, Read};
use std::path::Path;
use std::rt::Files;

/// A journal in a file, which is locked until this is dropped. What is written goes behind all that
/// the file holds.
#[derive(Drop)]
pub struct FileJournal {
    file: File,
    folder: File,
    sink: WriteSink<File>,
    /// Whether the file was synced behind the last write.
    is_synced: bool,
}

/// The folder in which a file is, wherever links lead to it.
fn folder_of<R: Files<File = File>>(rt: &R, alloc: Global, path: &str) -> io::Result<File> {
    let real = rt.canonicalize(alloc, path)?;
    match Path::new(real.as_str()).parent() {
        Some(folder) => File::open(rt, folder),
        None => File::open(rt, "/"),
    }
}

/// Refuses what has this name, unless it is a regular file: of a pipe or a device no end may come.
fn judge_kind<R: Files<File = File>>(rt: &R, path: &str) -> io::Result<()> {
    match fs::metadata(rt, path) {
        Ok(found) if !found.is_file() => Err(io::Error::from(ErrorKind::InvalidInput)),
        Ok(_) => Ok(()),
        Err(error) if error.kind() == ErrorKind::NotFound => Ok(()),
        Err(error) => Err(error),
    }
}

fn lock(file: &File) -> Result<(), OpenFault> {
    match file.try_lock() {
        Ok(()) => Ok(()),
        Err(TryLockError::WouldBlock) => Err(OpenFault::InUse),
        Err(TryLockError::Error(_)) => Err(OpenFault::Unopened),
    }
}

/// Opens a file for reading, and for writing after what it holds; makes it where it is not there.
fn open_file<R: Files<File = File>>(rt: &R, alloc: Global, path: &str) -> io::Result<FileJournal> {
    judge_kind(rt, path)?;
    let file = OpenOptions::new()
        .read(true)
        .append(true)
        .create(true)
        .open(rt, path)?;
    let folder = folder_of(rt, alloc, path)?;
    let sink = WriteSink::new(file.try_clone()?);
    Ok(FileJournal {
        file,
        folder,
        sink,
        is_synced: false,
    })
}

/// Opens the journal of this name, locks it, and keeps its name for good: a run that was killed may
/// have made the file and not kept that.
///
/// # Errors
///
/// [`OpenFault::InUse`] where another run has locked it, else [`OpenFault::Unopened`]: where it cannot
/// be opened, is no regular file, or its name cannot be kept.
pub fn open_journal<R: Files<File = File>>(
    rt: &R,
    alloc: Global,
    path: &str,
) -> Result<FileJournal, OpenFault> {
    let Ok(mut journal) = open_file(rt, alloc, path) else {
        return Err(OpenFault::Unopened);
    };
    lock(&journal.file)?;
    if !journal.keep_name() {
        return Err(OpenFault::Unopened);
    }
    Ok(journal)
}

impl Sink for FileJournal {
    ghost use Rattle.std.specs.Prelude.{None};

    ghost state = { λ j. record {
      contents = None;
      failed = (⟦<WriteSink<File> as Sink>⟧.state j.sink).failed;
    } };

    fn write(&mut self, bytes: &[u8]) -> Result<usize, SinkFailed> {
        self.is_synced = false;
        self.sink.write(bytes)
    }

    fn has_failed(&self) -> bool {
        self.sink.has_failed()
    }
}

impl Journal for FileJournal {
    ghost is_kept = { λ j. j.is_synced };

    fn keep(&mut self) -> bool {
        self.is_synced = self.file.sync_data().is_ok();
        self.is_synced
    }
}

impl JournalFile for FileJournal {
    fn read(&mut self, alloc: Global) -> io::Result<Vec<u8>> {
        let mut text = Vec::new(alloc);
        self.file.read_to_end(&mut text)?;
        Ok(text)
    }

    fn cut(&mut self, count: usize) -> bool {
        self.is_synced = self.file.set_len(count as u64).is_ok() && self.file.sync_all().is_ok();
        self.is_synced
    }

    fn keep_name(&mut self) -> bool {
        self.folder.sync_all().is_ok()
    }
}
