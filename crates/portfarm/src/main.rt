//! The program: connects the commands with the words, the files and the streams of the machine.
//!
//! Proved: that it is safe. What it answers is in the contract of `run_words` of farm_commands,
//! which of a machine's files and streams says only which statuses there are, since no contract
//! knows their bytes (`held`, `given` and `kept` are `None`). That these are the files and streams of
//! its words is only tested. A drive's journal counts as kept exactly where `keep` says so; that a
//! sync comes before that is by reading, and that two runs do not share a journal is tested.
#![tactic(auto)]

mod journal_file;

use crate::journal_file::{FileJournal, open_journal};
use drive_journal::OpenFault;
use farm_answers::read_up_to;
use farm_commands::{DriveSource, Folder, OUTSIDE, Source, WRONG_WORDS, Watch, run_words};
use report_sink::{Sink, WriteSink, write_text};
use std::alloc::{AllocError, Global};
use std::cell::Cell;
use std::env::{self, Env};
use std::fs::{self, File, OpenOptions};
use std::io::{self, BufReader, Eprint, ErrorKind, IsTerminal, Write};
use std::process::ExitCode;
use std::rt::{Clock, Files};

/// What is said to whoever sits at a terminal and gives no words: nobody types four texts there.
const USAGE: &[u8] =
    b"portfarm: no words, and standard input is a terminal\nUsage: portfarm <COMMAND>, or four texts on standard input; portfarm --help tells more\n";

/// How long nothing is told of a draft, and how long from one line on it to the next, in
/// milliseconds.
const QUIET: u64 = 500;

const PACE: u64 = 100;

/// The files and the standard input of a machine, and whether its error output is a terminal.
#[derive(Drop)]
struct Machine<'a, R> {
    rt: &'a R,
    alloc: Global,
    is_watched: bool,
    is_typed: bool,
    /// When a line on a draft is due, by its clock, and whether one stands there.
    is_due: Cell<u64>,
    has_told: Cell<bool>,
}

/// What a clock shows, in milliseconds.
fn milliseconds_of(clock: &impl Clock) -> u64 {
    match clock.since_1970() {
        Ok(time) => u64::try_from(time.as_millis()).unwrap_or(0),
        Err(_) => 0,
    }
}

impl<R: Files + Input> Source for Machine<'_, R> {
    ghost use Rattle.std.specs.Prelude.{None};

    ghost held = { λ _ _. None };

    ghost given = { λ _. None };

    type File = R::File;

    type Input = R::Reader;

    fn open(&self, path: &str) -> io::Result<R::File> {
        File::open(self.rt, path)
    }

    fn is_watched(&self) -> bool {
        self.is_watched
    }

    fn input(&self) -> R::Reader {
        self.rt.reader()
    }
}

impl<R: Files<File = File> + Input + Clock> DriveSource for Machine<'_, R> {
    ghost use Rattle.std.specs.Prelude.{None};

    ghost kept = { λ _ _. None };

    type Answers = BufReader<R::Reader>;

    type Journal = FileJournal;

    fn answers(&self, alloc: Global) -> Result<BufReader<R::Reader>, AllocError> {
        BufReader::new(alloc, self.rt.reader()).map_err(|_| AllocError)
    }

    fn is_typed(&self) -> bool {
        self.is_typed
    }

    fn nanoseconds(&self) -> u64 {
        match self.rt.since_1970() {
            Ok(time) => u64::try_from(time.as_nanos()).unwrap_or(0),
            Err(_) => 0,
        }
    }

    fn open_journal(&self, path: &str) -> Result<FileJournal, OpenFault> {
        open_journal(self.rt, self.alloc, path)
    }
}

/// Opens a file for reading, unless it is none, or no regular one: of a pipe in a folder no end may
/// come. What stands in /dev is asked for as such, as by a shell's `<(..)`.
fn open_regular<R: Files>(rt: &R, path: &str) -> io::Result<R::File> {
    let found = fs::metadata(rt, path)?;
    if found.is_dir() {
        return Err(io::Error::from(ErrorKind::IsADirectory));
    }
    if !found.is_file() && !path.starts_with("/dev/") {
        return Err(io::Error::from(ErrorKind::InvalidInput));
    }
    File::open(rt, path)
}

impl<R: Files + Input + Clock> Folder for Machine<'_, R> {
    fn read_part(&self, alloc: Global, path: &str, most: u32) -> io::Result<Vec<u8>> {
        read_up_to(alloc, open_regular(self.rt, path)?, most)
    }

    fn read_input(&self, alloc: Global, most: u32) -> io::Result<Vec<u8>> {
        read_up_to(alloc, self.rt.reader(), most)
    }

    fn make_folder(&mut self, path: &str) -> io::Result<()> {
        fs::create_dir_all(self.rt, path)
    }

    fn write_new(&mut self, path: &str, bytes: &[u8]) -> io::Result<()> {
        let mut file = File::create_new(self.rt, path)?;
        let written = file.write_all(bytes);
        if written.is_err() {
            self.remove_file(path);
        }
        written
    }

    fn rename_file(&mut self, from: &str, to: &str) -> io::Result<()> {
        fs::rename(self.rt, from, to)
    }

    fn remove_file(&mut self, path: &str) {
        let _removed = fs::remove_file(self.rt, path);
    }

    fn has_watcher(&self) -> bool {
        self.is_watched
    }

    fn milliseconds(&self) -> u64 {
        milliseconds_of(self.rt)
    }
}

impl<R: Clock + Eprint> Watch for Machine<'_, R> {
    fn places(&self, done: usize, whole: usize) {
        let now = milliseconds_of(self.rt);
        if !self.is_watched || now < self.is_due.get() {
            return;
        }
        self.is_due.set(now.saturating_add(PACE));
        self.has_told.set(true);
        let _written = eprint!(self.rt; "\r\x1b[Kdrafting {done} of {whole} builds");
    }

    fn ends(&self) {
        if self.has_told.replace(false) {
            let _written = eprint!(self.rt; "\r\x1b[K");
        }
    }
}

/// The words behind the program's name.
///
/// # Errors
///
/// Where a word is no text, or memory is refused.
fn words_of(rt: &(impl Env + AllocGlobal)) -> io::Result<Vec<String>> {
    let words = env::args(rt)?.skip(1).collect(rt.alloc())?;
    Ok(words)
}

/// Says on the error output why there are no words, and gives the status.
fn tell_no_words<E: Sink>(error: ErrorKind, errors: &mut E) -> u8 {
    if error == ErrorKind::OutOfMemory {
        let _written = write_text(errors, b"portfarm: out of memory\n");
        return OUTSIDE;
    }
    let _written = write_text(errors, b"portfarm: a word is not UTF-8 text\n");
    WRONG_WORDS
}

/// Takes the numbers of standard streams that were closed, so that no file that is opened later, as
/// a journal, is written to as one of them. Where they are open, three numbers more are taken.
fn hold_streams<R: Files<File = File>>(rt: &R) -> [io::Result<File>; 3] {
    [hold_stream(rt), hold_stream(rt), hold_stream(rt)]
}

fn hold_stream<R: Files<File = File>>(rt: &R) -> io::Result<File> {
    OpenOptions::new()
        .read(true)
        .write(true)
        .open(rt, "/dev/null")
}

fn main(rt: HostRuntime) -> ExitCode {
    let _held = hold_streams(&rt);
    let stderr = rt.stderr();
    let mut errors = WriteSink::new(io::writer(&stderr));
    let words = match words_of(&rt) {
        Ok(words) => words,
        Err(error) => return ExitCode::from(tell_no_words(error.kind(), &mut errors)),
    };
    if words.is_empty() && rt.stdin().is_terminal() {
        let _written = write_text(&mut errors, USAGE);
        return ExitCode::from(WRONG_WORDS);
    }
    let mut machine = Machine {
        rt: &rt,
        alloc: rt.alloc(),
        is_watched: stderr.is_terminal(),
        is_typed: rt.stdin().is_terminal(),
        is_due: Cell::new(milliseconds_of(&rt).saturating_add(QUIET)),
        has_told: Cell::new(false),
    };
    let status = run_words(
        &rt,
        rt.alloc(),
        words.as_slice(),
        &mut machine,
        &mut WriteSink::new(io::writer(&rt)),
        &mut errors,
    );
    ExitCode::from(status)
}
