//! The cases of a file, line by line.

use crate::lines::{LineFault, push_line};
use deb_text::is_comment;
use std::alloc::Global;
use std::mem;

/// A question, and the answer that is wanted.
#[derive(Drop)]
pub struct Case<'a> {
    pub name: &'a [u8],
    /// What the question is about, mostly the four texts of a farm.
    pub input: Vec<u8>,
    /// A word and what stands behind it; empty where the verdict is asked for.
    pub question: &'a [u8],
    pub want: Vec<u8>,
}

impl<'a> Case<'a> {
    fn named(alloc: Global, name: &'a [u8]) -> Case<'a> {
        Case {
            name,
            input: Vec::new(alloc),
            question: b"",
            want: Vec::new(alloc),
        }
    }
}

/// A text that the cases behind it use by its name.
#[derive(Drop)]
pub struct Given<'a> {
    pub name: &'a [u8],
    pub text: Vec<u8>,
}

/// What the next lines belong to.
#[derive(Clone, Copy)]
enum Part {
    Nothing,
    Given,
    Input,
    Answer,
}

/// Reads the cases of a file: the texts that are given so far, and the case under way.
#[derive(Drop)]
pub struct Cases<'a> {
    givens: Vec<Given<'a>>,
    part: Part,
    /// Or the given text under way, as its input.
    case: Case<'a>,
}

/// The question behind the line that ends a text.
fn question_of(line: &[u8]) -> Option<&[u8]> {
    if line == b"---".as_slice() {
        Some(b"")
    } else {
        line.strip_prefix(b"--- ")
    }
}

impl<'a> Cases<'a> {
    /// Stands before the first line of a file.
    pub fn new(alloc: Global) -> Cases<'a> {
        Cases {
            givens: Vec::new(alloc),
            part: Part::Nothing,
            case: Case::named(alloc, b""),
        }
    }

    /// Takes the next line, and gives the case that ends before it, if one does.
    ///
    /// # Errors
    ///
    /// The fault of the line.
    pub fn take(&mut self, line: &'a [u8]) -> Result<Option<Case<'a>>, LineFault> {
        if let Some(name) = line.strip_prefix(b"=== ") {
            return self.begin(Part::Input, name);
        }
        if let Some(name) = line.strip_prefix(b"+++ ") {
            return self.begin(Part::Given, name);
        }
        self.put(line)?;
        Ok(None)
    }

    /// Gives the case that ends where the file does, if one does.
    ///
    /// # Errors
    ///
    /// [`LineFault::NoEnd`] where a text has no end.
    pub fn take_last(&mut self) -> Result<Option<Case<'a>>, LineFault> {
        self.begin(Part::Nothing, b"")
    }

    fn begin(&mut self, part: Part, name: &'a [u8]) -> Result<Option<Case<'a>>, LineFault> {
        let ended = mem::replace(&mut self.part, part);
        let case = self.next_case(name);
        match ended {
            Part::Nothing => Ok(None),
            Part::Given | Part::Input => Err(LineFault::NoEnd),
            Part::Answer => Ok(Some(case)),
        }
    }

    /// Begins a case, and gives the one that was under way.
    fn next_case(&mut self, name: &'a [u8]) -> Case<'a> {
        let next = Case::named(*self.case.want.allocator(), name);
        mem::replace(&mut self.case, next)
    }

    fn put(&mut self, line: &'a [u8]) -> Result<(), LineFault> {
        match self.part {
            Part::Nothing => Ok(()),
            Part::Given | Part::Input => self.put_in_text(line),
            Part::Answer if line.is_empty() || is_comment(line) => Ok(()),
            Part::Answer => push_line(&mut self.case.want, &self.givens, line),
        }
    }

    fn put_in_text(&mut self, line: &'a [u8]) -> Result<(), LineFault> {
        match question_of(line) {
            Some(question) => self.end_text(question),
            None => push_line(&mut self.case.input, &self.givens, line),
        }
    }

    fn end_text(&mut self, question: &'a [u8]) -> Result<(), LineFault> {
        if let Part::Given = self.part {
            self.part = Part::Nothing;
            return self.keep_given();
        }
        self.part = Part::Answer;
        self.case.question = question;
        Ok(())
    }

    fn keep_given(&mut self) -> Result<(), LineFault> {
        let case = self.next_case(b"");
        let given = Given {
            name: case.name,
            text: case.input,
        };
        self.givens.push(given)?;
        Ok(())
    }
}
