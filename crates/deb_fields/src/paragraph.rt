//! One paragraph of a text.

ghost use Rattle.std.specs.Prelude.{◌≡◌, ◌<◌, length};
ghost use Rattle.std.specs.Option.{option_map};
ghost use Rattle.deb_text.specs.Answers.{Gives};
ghost use Rattle.deb_relation.specs.View.{refusal_of};
ghost use Rattle.deb_stanza.specs.Stanza.{value_of, paragraph_at};
ghost use Rattle.deb_fields.specs.Fields.{needed_at};

use crate::error::ABSENT;
use deb_relation::RelationError;
use deb_stanza::Paragraphs;
use std::marker::Model;

/// One paragraph of a text. A contract sees what it says.
#[derive(Drop)]
pub struct Paragraph<'a> {
    text: &'a Paragraphs,
    number: usize,
}

impl<'a> Model for Paragraph<'a> {
    ghost use Rattle.std.specs.Prelude.{◌<◌, length};
    ghost use Rattle.deb_stanza.specs.Stanza as stanza;

    ghost Value = { stanza.Paragraph };

    ghost view = { λ p. stanza.paragraph_at p.text.now p.number };

    ghost invariant = { λ p. p.number < length p.text.now };
}

impl<'a> Paragraph<'a> {
    /// The paragraph of this number, counted from 0.
    pub fn new(text: &'a Paragraphs, number: usize) -> Paragraph<'a>
        requires { number < length text.now }
        ensures { result ≡ paragraph_at text.now number }
    {
        Paragraph { text, number }
    }

    /// The number of its first line.
    pub fn line(&self) -> u32
        ensures { result ≡ self.now.line }
    {
        self.text.line_of(self.number)
    }

    /// The value of a field.
    pub fn field(&self, name: &[u8]) -> Option<&'a [u8]>
        ensures { option_map (λ v. v.now) result ≡ value_of self.now name.now }
    {
        self.text.field(self.number, name)
    }

    /// The value of a field that has to stand.
    ///
    /// # Errors
    ///
    /// 201 where it is absent.
    pub fn needed(&self, name: &[u8]) -> Result<&'a [u8], RelationError>
        ensures { Gives refusal_of (λ v. v.now) result (needed_at self.now name.now) }
    {
        match self.field(name) {
            Some(value) => Ok(value),
            None => Err(RelationError { code: ABSENT }),
        }
    }
}
