//! A driver in memory, and the journal that its lives share.

use deb_text::{next_line, next_word};
use drive_journal::whole_part;
use std::alloc::{AllocError, Global};
use std::sync::{Condvar, Mutex, Wait};

/// What a driver has seen, and what it does next.
#[derive(Drop)]
pub struct State<'c> {
    /// The steps that are left, a line each.
    pub steps: &'c [u8],
    /// What was written, but for the lines that a step has expected.
    pub written: Vec<u8>,
    /// How many lines were written, and how often the journal was kept.
    pub lines: usize,
    pub keeps: usize,
    /// How many of the lines that are left were answered behind the last step.
    answered: usize,
    /// The machine went down: nothing of what is written from here on counts.
    pub is_dead: bool,
    /// A line was there that no step had expected by then.
    pub is_loud: bool,
    pub journal: Vec<u8>,
    /// How many bytes of the journal stay if the machine goes down.
    pub kept: usize,
}

/// What comes of a look at the next step.
#[derive(Drop)]
pub enum Next {
    /// The driver writes these bytes.
    Say(Vec<u8>),
    /// It writes nothing more.
    End,
    /// It waits for a line.
    Wait,
}

/// Where in a text the first of its lines stands that is this one.
fn place_of(text: &[u8], line: &[u8]) -> Option<usize> {
    let mut rest = text;
    while let Some((found, behind)) = next_line(rest) {
        if found == line {
            return Some(text.len().saturating_sub(rest.len()));
        }
        rest = behind;
    }
    None
}

/// The line of a text with this number, from 0, of those by which a driver is asked.
fn request_at(text: &[u8], number: usize) -> Option<&[u8]> {
    let mut rest = text;
    let mut passed = 0;
    while let Some((line, behind)) = next_line(rest) {
        if line.starts_with(b"start ") || line.starts_with(b"again ") {
            if passed == number {
                return Some(line);
            }
            passed = passed.saturating_add(1);
        }
        rest = behind;
    }
    None
}

/// The answer that what a line asks for is done.
fn done_to(alloc: Global, line: &[u8]) -> Result<Vec<u8>, AllocError> {
    let mut text = Vec::from_slice(alloc, b"done ")?;
    let Some((_, rest)) = next_word(line) else {
        return Ok(text);
    };
    let (lane, rest) = next_word(rest).unwrap_or((b"?", b""));
    let (number, _) = next_word(rest).unwrap_or((b"?", b""));
    text.extend_from_slice(lane)?;
    text.push(b' ')?;
    text.extend_from_slice(number)?;
    text.push(b'\n')?;
    Ok(text)
}

/// The lines of a text up to `finished` in the order of their bytes, and those behind.
fn in_order(alloc: Global, text: &[u8]) -> Result<Vec<u8>, AllocError> {
    let mut lines = Vec::new(alloc);
    let mut rest = text;
    while let Some((line, behind)) = next_line(rest) {
        if line == b"finished".as_slice() {
            break;
        }
        lines.push(line)?;
        rest = behind;
    }
    lines.sort()?;
    let mut ordered = Vec::new(alloc);
    for line in &lines {
        ordered.extend_from_slice(line)?;
        ordered.push(b'\n')?;
    }
    ordered.extend_from_slice(rest)?;
    Ok(ordered)
}

impl<'c> State<'c> {
    /// Takes a line away from what was written, and tells whether it was there.
    fn take(&mut self, line: &[u8]) -> Result<bool, AllocError> {
        let Some(place) = place_of(whole_part(&self.written), line) else {
            return Ok(false);
        };
        let mut left = Vec::new(*self.written.allocator());
        let place = place.min(self.written.len());
        left.extend_from_slice(&self.written[..place])?;
        let behind = place.saturating_add(line.len()).saturating_add(1);
        left.extend_from_slice(&self.written[behind.min(self.written.len())..])?;
        self.written = left;
        Ok(true)
    }

    /// What stays of the journal if the machine goes down.
    fn kept_part(&self) -> &[u8] {
        &self.journal[..self.kept.min(self.journal.len())]
    }

    /// Answers what is not answered yet, behind the last step.
    fn answer(&mut self) -> Result<Next, AllocError> {
        let Some(line) = request_at(whole_part(&self.written), self.answered) else {
            return Ok(Next::End);
        };
        let text = done_to(*self.written.allocator(), line)?;
        self.answered = self.answered.saturating_add(1);
        Ok(Next::Say(text))
    }

    /// A line with its end, or without it.
    fn said(&self, line: &[u8], is_whole: bool) -> Result<Next, AllocError> {
        let mut text = Vec::from_slice(*self.written.allocator(), line)?;
        if is_whole {
            text.push(b'\n')?;
        }
        Ok(Next::Say(text))
    }

    /// Plays one step.
    fn play(&mut self, step: &[u8]) -> Result<Next, AllocError> {
        if let Some(line) = step.strip_prefix(b"send ") {
            return self.said(line, true);
        }
        if let Some(text) = step.strip_prefix(b"part ") {
            return self.said(text, false);
        }
        if step == b"send".as_slice() {
            return self.said(b"", true);
        }
        if step == b"kill".as_slice() {
            self.is_dead = true;
            self.journal.truncate(self.kept);
        }
        Ok(Next::End)
    }

    /// Passes over a step by which nothing is written, and tells whether it is one. Where it waits
    /// for a line that is not there, nothing is told.
    fn pass(&mut self, step: &[u8]) -> Result<Option<bool>, AllocError> {
        if let Some(line) = step.strip_prefix(b"expect ") {
            return Ok(if self.take(line)? { Some(true) } else { None });
        }
        if let Some(line) = step.strip_prefix(b"kept ") {
            let is_kept = place_of(whole_part(self.kept_part()), line).is_some();
            return Ok(if is_kept { Some(true) } else { None });
        }
        if step != b"quiet".as_slice() {
            return Ok(Some(false));
        }
        self.is_loud = self.is_loud || request_at(&self.written, 0).is_some();
        Ok(Some(true))
    }

    /// Plays the steps up to the first by which something is written, or the end, or a line that is
    /// expected and not there.
    pub fn next(&mut self) -> Result<Next, AllocError> {
        while let Some((step, behind)) = next_line(self.steps) {
            let Some(is_passed) = self.pass(step)? else {
                return Ok(Next::Wait);
            };
            self.steps = behind;
            if !is_passed {
                return self.play(step);
            }
        }
        self.answer()
    }
}

/// What a life has left.
#[derive(Drop)]
pub struct Left {
    pub written: Vec<u8>,
    pub journal: Vec<u8>,
    pub is_dead: bool,
    pub is_loud: bool,
}

/// What the lives of a drive share.
#[derive(Drop)]
pub struct Stage<'c, R: Wait> {
    pub rt: &'c R,
    pub alloc: Global,
    pub state: Mutex<State<'c>>,
    pub changed: Condvar,
}

impl<'c, R: Wait> Stage<'c, R> {
    /// A life of these steps, with this journal, of which nothing stays before it is kept.
    pub fn new(rt: &'c R, alloc: Global, steps: &'c [u8], journal: Vec<u8>) -> Stage<'c, R> {
        Stage {
            rt,
            alloc,
            state: Mutex::new(State {
                steps,
                written: Vec::new(alloc),
                lines: 0,
                keeps: 0,
                answered: 0,
                is_dead: false,
                is_loud: false,
                journal,
                kept: 0,
            }),
            changed: Condvar::new(),
        }
    }

    /// What the driver says next; nothing at its end.
    pub fn say(&self) -> Result<Vec<u8>, AllocError> {
        for _ in self.rt.forever() {
            let mut state = self.state.lock(self.rt);
            let seen = (state.lines, state.keeps);
            match state.next()? {
                Next::Say(text) => return Ok(text),
                Next::End => break,
                Next::Wait => {
                    let _state = self
                        .changed
                        .wait_while(self.rt, state, |state| (state.lines, state.keeps) == seen);
                }
            }
        }
        Ok(Vec::new(self.alloc))
    }

    /// What was written and no step has expected: the lines up to `finished` in the order of their
    /// bytes, since lanes go on side by side, and those behind; and the journal.
    pub fn end(&self, alloc: Global) -> Result<Left, AllocError> {
        let state = self.state.lock(self.rt);
        Ok(Left {
            written: in_order(alloc, &state.written)?,
            journal: Vec::from_slice(alloc, &state.journal)?,
            is_dead: state.is_dead,
            is_loud: state.is_loud,
        })
    }
}
