//! The paragraphs of a text.

ghost use Rattle.std.specs.Prelude.{◌≡◌, ◌<◌, ◌≤◌, length};
ghost use Rattle.std.specs.Option.{option_map};
ghost use Rattle.deb_text.specs.Answers.{Gives, refusal_of};
ghost use Rattle.deb_stanza.specs.Stanza.{paragraph_at, paragraphs_at, value_of};

use crate::draft::read_lines;
use crate::error::{MOST_BYTES, TEXT_TOO_LONG};
use crate::fields::fault;
use crate::table::Table;
use deb_text::Fault;
use std::alloc::Global;
use std::marker::Model;

/// The paragraphs of a text. A contract sees the list of them.
#[derive(Drop)]
pub struct Paragraphs {
    table: Table,
}

impl Model for Paragraphs {
    ghost use Rattle.std.specs.Prelude.{List};
    ghost use Rattle.deb_stanza.specs.Stanza.{Paragraph};
    ghost use Rattle.deb_stanza.specs.View.{IsSoundTable, table_paragraphs};

    ghost Value = { List Paragraph };

    ghost view = { λ p. table_paragraphs p.table };

    ghost invariant = { λ p. IsSoundTable p.table };
}

impl Paragraphs {
    /// Reads the paragraphs of a text, as Debian Policy 5.1 has them.
    ///
    /// Lines that begin with `#` are skipped. Lines of spaces and tabs alone, and empty ones,
    /// separate paragraphs.
    ///
    /// # Errors
    ///
    /// The fault has file 0. First [`TEXT_TOO_LONG`] at line 0, where the text has more than
    /// [`MOST_BYTES`] bytes. Then the first line with a fault, told with its number, of one line in
    /// this order: [`CONTINUES_NO_FIELD`](crate::CONTINUES_NO_FIELD),
    /// [`NO_COLON`](crate::NO_COLON), [`BAD_FIELD_NAME`](crate::BAD_FIELD_NAME),
    /// [`FIELD_TWICE`](crate::FIELD_TWICE). [`Fault::MEMORY`] where memory ran out.
    #[tactic(auto, unfolding(crate::specs::Stanza::paragraphs_at))]
    pub fn read(alloc: Global, text: &[u8]) -> Result<Paragraphs, Fault>
        ensures { Gives refusal_of (λ paragraphs. paragraphs) result (paragraphs_at text.now) }
    {
        if text.len() > MOST_BYTES {
            return Err(fault(0, TEXT_TOO_LONG));
        }
        let table = read_lines(alloc, text)?;
        Ok(Paragraphs { table })
    }

    /// How many paragraphs there are.
    pub fn count(&self) -> usize
        ensures { result ≡ length self.now }
    {
        self.table.paragraphs.len()
    }

    /// The number of a paragraph's first line.
    pub fn line_of(&self, paragraph: usize) -> u32
        requires { paragraph < length self.now }
        ensures { result ≡ (paragraph_at self.now paragraph).line }
    {
        self.table.paragraphs[paragraph].line
    }

    /// Where a part of the paragraphs ends, for whoever reads them part by part: behind this one,
    /// and behind as many more as begin within `bytes` bytes from its own start. A paragraph
    /// counts as the bytes of its fields and 64 more.
    pub fn part_end(&self, first: usize, bytes: usize) -> usize
        requires { first < length self.now }
        ensures some { first < result }
        ensures within { result ≤ length self.now }
    {
        let count = self.count();
        let start = self.table.weight_before(first);
        for next in first + 1..count {
            if self.table.weight_before(next).saturating_sub(start) >= bytes {
                return next;
            }
        }
        count
    }

    /// The value of a paragraph's field, where it has one of that name, but for the case of
    /// ASCII letters. A field without a value has the empty one.
    pub fn field(&self, paragraph: usize, name: &[u8]) -> Option<&[u8]>
        requires { paragraph < length self.now }
        ensures { option_map (λ value. value.now) result
            ≡ value_of (paragraph_at self.now paragraph) name.now }
    {
        self.table.value(paragraph, name)
    }
}
