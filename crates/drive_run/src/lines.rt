//! The lines by which a driver is asked.

ghost use Rattle.std.specs.Prelude.{◌≡◌, ◌++◌, [], true, false, is_err};
ghost use Rattle.drive_run.specs.Asking.{IsAdded, outgoing};
ghost use Rattle.drive_run.specs.Questions.{number_of, question_text, wanted};
ghost use Rattle.drive_run.specs.Replies.{IsOf};
ghost use Rattle.report_sink.specs.Sinks.{IsWritten};

use crate::known::Known;
use crate::office::Kept;
use crate::question::{Question, write_question};
use report_sink::{Sink, WriteFailed, WriteSink, write_text};
use std::alloc::Global;
use std::mem;

/// The output that a driver reads, and the lines that are to be written to it.
#[derive(Drop)]
pub struct Lines<'a, S> {
    alloc: Global,
    out: &'a mut S,
    text: Vec<u8>,
}

/// Adds the line of a question to a text. Gives the text, and whether there was memory for the
/// line; it is as it was where there was none.
fn with_question(text: Vec<u8>, known: &Known, question: Question<'_>) -> (Vec<u8>, bool)
    ensures added { result.1 ≡ true
        → result.0.items ≡ text.items ++ question_text known.now (wanted question.entry) }
    ensures same { result.1 ≡ false → result.0.items ≡ text.items }
{
    let whole = text.len();
    let mut lines = WriteSink::new(text);
    let written = write_question(&mut lines, known, question);
    let mut text = lines.into_inner();
    if written.is_ok() {
        return (text, true);
    }
    text.truncate(whole);
    (text, false)
}

impl<'a, S: Sink> Lines<'a, S> {
    /// No lines for this output.
    pub fn new(alloc: Global, out: &'a mut S) -> Lines<'a, S> {
        Lines {
            alloc,
            out,
            text: Vec::new(alloc),
        }
    }

    /// Writes the lines that are there.
    ///
    /// # Errors
    ///
    /// [`WriteFailed`] where the output has failed.
    pub fn send(&mut self) -> Result<(), WriteFailed>
        ensures written { IsWritten (S.state self.old.out.now) (S.state self.new.out.now)
            self.old.text.items }
        ensures none_left { self.new.text.items ≡ [] }
        ensures told { is_err result ≡ (S.state self.new.out.now).failed }
    {
        let written = write_text(&mut *self.out, self.text.as_slice());
        self.text.clear();
        written
    }

    /// Adds the line of a question to those that are there, and tells whether there was memory
    /// for it.
    fn push(&mut self, known: &Known, question: Question<'_>) -> bool
        ensures added { result ≡ true
            → self.new.text.items ≡ self.old.text.items ++ question_text known.now (wanted question.entry) }
        ensures same { result ≡ false → self.new.text.items ≡ self.old.text.items }
        ensures out { self.new.out ≡ self.old.out }
    {
        let text = mem::replace(&mut self.text, Vec::new(self.alloc));
        let (text, is_added) = with_question(text, known, question);
        self.text = text;
        is_added
    }

    /// Adds the line of a question whose entry is kept. Where memory for it is refused, all is
    /// written at once.
    ///
    /// # Errors
    ///
    /// [`WriteFailed`] where the output has failed then.
    pub fn add(
        &mut self,
        known: &Known,
        question: Question<'_>,
        _kept: &Kept,
    ) -> Result<(), WriteFailed>
        requires kept { IsOf question.place.lane (number_of (wanted question)) _kept.now }
        ensures added { IsAdded (outgoing (S.state self.old.out.now) self.old.text.items)
            (outgoing (S.state self.new.out.now) self.new.text.items)
            (question_text known.now (wanted question.entry)) }
        ensures failed { is_err result ≡ true → (S.state self.new.out.now).failed ≡ true }
    {
        if self.push(known, question) {
            return Ok(());
        }
        self.send()?;
        write_question(&mut *self.out, known, question)
    }
}
