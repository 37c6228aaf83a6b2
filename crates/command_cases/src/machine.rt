//! The files and the standard input of a machine in memory.

use crate::runs::push_lines;
use crate::stage::Stage;
use crate::streams::{StageInput, StageJournal, first_line};
use deb_text::next_line;
use drive_journal::OpenFault;
use farm_answers::read_up_to;
use farm_commands::{DriveSource, Folder, Source, Watch};
use std::alloc::{AllocError, Global};
use std::cell::Cell;
use std::io::{self, BufReader, ErrorKind, Read};
use std::mem;
use std::sync::Wait;

/// How a file of a machine fails.
#[derive(Clone, Copy, PartialEq, Eq)]
enum Fails {
    Never,
    /// It cannot be opened.
    Opened,
    /// A read behind its bytes fails.
    Read,
    /// It is a folder, of which a read fails.
    Folder,
    /// It is no regular file.
    Pipe,
}

/// A file of this name, or standard input, whose name is empty.
#[derive(Drop)]
struct Part<'a> {
    name: &'a [u8],
    text: Vec<u8>,
    fails: Fails,
}

impl Part<'_> {
    /// Puts a byte in the place of another, and gives that.
    fn put(&mut self, at: usize, byte: u8) -> u8 {
        match self.text.get_mut(at) {
            Some(place) => mem::replace(place, byte),
            None => byte,
        }
    }
}

/// The file of a machine whose error output is a terminal.
const TERMINAL: &[u8] = b"/dev/tty";

/// What a machine has.
#[derive(Drop)]
pub struct Parts<'a> {
    parts: Vec<Part<'a>>,
}

/// What a heading has ahead of a file's name, by how the file fails; standard input has none.
const MARKS: [(&[u8], Fails); 7] = [
    (b"file ", Fails::Never),
    (b"broken file ", Fails::Read),
    (b"broken input", Fails::Read),
    (b"closed file ", Fails::Opened),
    (b"folder input", Fails::Folder),
    (b"folder ", Fails::Folder),
    (b"pipe ", Fails::Pipe),
];

/// The name that a heading tells, as `file plan` or `broken file plan`, and how that fails.
fn heading_of(heading: &[u8]) -> (&[u8], Fails) {
    for (mark, fails) in &MARKS {
        if let Some(name) = heading.strip_prefix(*mark) {
            return (name, *fails);
        }
    }
    (b"", Fails::Never)
}

/// Reads what a case gives to a machine: behind a line `%% file NAME` that file, behind
/// `%% input` standard input, up to the next such line, each with its line ends.
pub fn parts_of(alloc: Global, input: &[u8]) -> Result<Parts<'_>, AllocError> {
    let mut parts: Vec<Part> = Vec::new(alloc);
    let mut rest = input;
    while let Some((line, behind)) = next_line(rest) {
        let whole = first_line(rest);
        rest = behind;
        if let Some(heading) = line.strip_prefix(b"%% ") {
            let (name, fails) = heading_of(heading);
            let text = Vec::new(alloc);
            parts.push(Part { name, text, fails })?;
        } else if let Some(part) = parts.last_mut() {
            part.text.extend_from_slice(whole)?;
        }
    }
    Ok(Parts { parts })
}

impl Parts<'_> {
    /// The text of the file of this name, empty where there is none.
    pub fn text(&self, name: &[u8]) -> &[u8] {
        for part in &self.parts {
            if part.name == name {
                return part.text.as_slice();
            }
        }
        b""
    }

    /// Puts a byte in the place of one of a file, and gives that; where the file has none there,
    /// nothing is put, and the byte itself is given.
    pub fn put(&mut self, name: &[u8], at: usize, byte: u8) -> u8 {
        for part in &mut self.parts {
            if part.name == name {
                return part.put(at, byte);
            }
        }
        byte
    }
}

/// Reads a text in memory.
#[derive(Drop)]
pub struct TextReader<'a> {
    rest: &'a [u8],
    fails: Fails,
}

impl Read for TextReader<'_> {
    fn read(&mut self, buf: &mut [u8]) -> io::Result<usize> {
        match self.fails {
            Fails::Folder => Err(io::Error::from(ErrorKind::IsADirectory)),
            Fails::Read if self.rest.is_empty() => Err(io::Error::from(ErrorKind::Other)),
            _ => self.rest.read(buf),
        }
    }
}

/// A machine that has these parts and what a driver of it needs, and notes what is done with files.
#[derive(Drop)]
pub struct Machine<'a, D> {
    alloc: Global,
    parts: &'a Parts<'a>,
    driver: D,
    done: Cell<Vec<u8>>,
    /// How often its clock was looked at.
    looks: Cell<u64>,
}

impl<'a, D> Machine<'a, D> {
    pub fn new(alloc: Global, parts: &'a Parts<'a>, driver: D) -> Machine<'a, D> {
        Machine {
            alloc,
            parts,
            driver,
            done: Cell::new(Vec::new(alloc)),
            looks: Cell::new(0),
        }
    }

    /// Notes something that was done, and the bytes of a file.
    fn note(&self, words: &[&str], bytes: &[u8]) -> io::Result<()> {
        let mut done = self.done.replace(Vec::new(self.alloc));
        for word in words {
            done.extend_from_slice(word.as_bytes())?;
        }
        done.extend_from_slice(b"\n")?;
        push_lines(&mut done, b"> ", bytes)?;
        self.done.set(done);
        Ok(())
    }

    /// Notes how far a draft has come.
    fn note_places(&self, done: usize, whole: usize) -> io::Result<()> {
        let line = format!(in self.alloc; "placed {done} of {whole}")?;
        self.note(&[line.as_str()], b"")
    }

    /// How the file of this name fails, if there is one.
    fn fails_of(&self, path: &str) -> Fails {
        match self.part(path.as_bytes()) {
            Some(file) => file.fails,
            None => Fails::Never,
        }
    }

    /// Fails where no file of this name can be made: it is broken, or there is one.
    fn judge_new(&self, path: &str) -> io::Result<()> {
        match self.part(path.as_bytes()) {
            Some(file) if file.fails == Fails::Read => Err(io::Error::from(ErrorKind::Other)),
            Some(_) => Err(io::Error::from(ErrorKind::AlreadyExists)),
            None => Ok(()),
        }
    }

    fn part(&self, name: &[u8]) -> Option<TextReader<'a>> {
        for part in &self.parts.parts {
            if part.name == name {
                return Some(TextReader {
                    rest: part.text.as_slice(),
                    fails: part.fails,
                });
            }
        }
        None
    }
}

impl<D: Drop> Machine<'_, D> {
    /// What was done with files: a line for each folder that was made and each file that was
    /// written, removed or has got another name, and the lines of what was written, each behind a
    /// mark.
    pub fn into_done(self) -> Vec<u8> {
        let Machine {
            alloc: _,
            parts: _,
            driver: _driver,
            done,
            looks: _,
        } = self;
        done.into_inner()
    }
}

impl<'a, D> Source for Machine<'a, D> {
    ghost use Rattle.std.specs.Prelude.{None};

    ghost held = { λ _ _. None };

    ghost given = { λ _. None };

    type File = TextReader<'a>;

    type Input = TextReader<'a>;

    fn open(&self, path: &str) -> io::Result<TextReader<'a>> {
        match self.part(path.as_bytes()) {
            Some(file) if file.fails == Fails::Opened => {
                Err(io::Error::from(ErrorKind::PermissionDenied))
            }
            Some(file) => Ok(file),
            None => Err(io::Error::from(ErrorKind::NotFound)),
        }
    }

    fn is_watched(&self) -> bool {
        false
    }

    fn input(&self) -> TextReader<'a> {
        self.part(b"").unwrap_or(TextReader {
            rest: b"",
            fails: Fails::Never,
        })
    }
}

/// The driver of a machine: the life that it plays, how many lines its output takes before it
/// fails, how many its journal takes, and whether another run has locked that.
#[derive(Drop)]
pub struct Driver<'s, 'c, R: Wait> {
    pub stage: &'s Stage<'c, R>,
    pub most_entries: usize,
    pub is_locked: bool,
}

impl<'s, 'c, R: Wait + Sync> DriveSource for Machine<'_, Driver<'s, 'c, R>> {
    ghost use Rattle.std.specs.Prelude.{None};

    ghost kept = { λ _ _. None };

    type Answers = BufReader<StageInput<'s, 'c, R>>;

    type Journal = StageJournal<'s, 'c, R>;

    fn answers(&self, alloc: Global) -> Result<BufReader<StageInput<'s, 'c, R>>, AllocError> {
        let stage = self.driver.stage;
        BufReader::new(alloc, StageInput { stage }).map_err(|_| AllocError)
    }

    fn is_typed(&self) -> bool {
        false
    }

    fn nanoseconds(&self) -> u64 {
        1
    }

    fn open_journal(&self, _path: &str) -> Result<StageJournal<'s, 'c, R>, OpenFault> {
        if self.driver.is_locked {
            return Err(OpenFault::InUse);
        }
        Ok(StageJournal {
            stage: self.driver.stage,
            most: self.driver.most_entries,
            has_failed: false,
            is_kept: false,
        })
    }
}

impl<D> Folder for Machine<'_, D> {
    fn read_part(&self, alloc: Global, path: &str, most: u32) -> io::Result<Vec<u8>> {
        if self.fails_of(path) == Fails::Pipe {
            return Err(io::Error::from(ErrorKind::InvalidInput));
        }
        read_up_to(alloc, self.open(path)?, most)
    }

    fn read_input(&self, alloc: Global, most: u32) -> io::Result<Vec<u8>> {
        read_up_to(alloc, self.input(), most)
    }

    fn make_folder(&mut self, path: &str) -> io::Result<()> {
        self.note(&["made ", path], b"")
    }

    fn write_new(&mut self, path: &str, bytes: &[u8]) -> io::Result<()> {
        self.judge_new(path)?;
        self.note(&["written ", path], bytes)
    }

    fn rename_file(&mut self, from: &str, to: &str) -> io::Result<()> {
        if self.fails_of(to) == Fails::Folder {
            return Err(io::Error::from(ErrorKind::IsADirectory));
        }
        self.note(&["renamed ", from, " to ", to], b"")
    }

    fn remove_file(&mut self, path: &str) {
        let _noted = self.note(&["removed ", path], b"");
    }

    fn has_watcher(&self) -> bool {
        self.part(TERMINAL).is_some()
    }

    /// 200 more at each look.
    fn milliseconds(&self) -> u64 {
        let looks = self.looks.get();
        self.looks.set(looks.saturating_add(1));
        looks.saturating_mul(200)
    }
}

impl<D> Watch for Machine<'_, D> {
    /// Notes it, where the error output is a terminal.
    fn places(&self, done: usize, whole: usize) {
        if self.has_watcher() {
            let _noted = self.note_places(done, whole);
        }
    }

    fn ends(&self) {}
}
