//! The words of a list, each read by the rule of its kind.

ghost use Rattle.std.specs.Prelude.{◌≡◌};
ghost use Rattle.deb_text.specs.Common.{Gives, traverse, words};
ghost use Rattle.deb_relation.specs.View.{refusal_of};

use crate::error::RelationError;
use deb_text::next_word;
use std::alloc::Global;

/// How a word of a list is read.
pub trait WordRule {
    ghost use Rattle.std.specs.Prelude.{ℕ, List, Result};

    type Read: Drop;

    ghost meaning: { Self → List ℕ → Result Self.Read ℕ };

    /// Reads a word.
    ///
    /// # Errors
    ///
    /// Where the rule refuses it, and 900 where memory is refused. Nothing is left behind.
    fn read(&self, alloc: Global, word: &[u8]) -> Result<Self::Read, RelationError>
        ensures { Gives refusal_of (λ read. read) result (meaning self.now word.now) };
}

/// Reads words that are separated by blanks, each by the same rule.
///
/// # Errors
///
/// That of the first word that the rule refuses, and 900 where memory is refused. Nothing is left
/// behind.
pub fn read_words<R: WordRule>(
    alloc: Global,
    rule: &R,
    text: &[u8],
) -> Result<Vec<R::Read>, RelationError>
    ensures { Gives refusal_of (λ list. list.items) result
        (traverse (R.meaning rule.now) (words text.now)) }
{
    let mut list = Vec::new(alloc);
    let mut rest = text;
    while let Some((word, after)) = next_word(rest) {
        list.push(rule.read(alloc, word)?)?;
        rest = after;
    }
    Ok(list)
}
