//! Lists of words: the names of an architecture, and build profiles.

ghost use Rattle.std.specs.Prelude.{◌≡◌, []};
ghost use Rattle.std.specs.List.{list_all};
ghost use Rattle.deb_text.specs.Common.{Gives, is_word, words};
ghost use Rattle.deb_relation.specs.View.{refusal_of};
ghost use Rattle.deb_profile.specs.Restriction.{is_among};
ghost use Rattle.deb_profile.specs.WordList.{words_at};

use deb_relation::{BAD_WORD, RelationError};
use deb_text::{is_word, next_word};
use std::alloc::Global;
use std::marker::Model;

/// The names of an architecture, the wildcards that match it among them, as they are written:
/// `riscv64 any linux-any`. A contract sees their list.
#[derive(Drop)]
pub struct ArchNames {
    text: Vec<u8>,
}

impl Model for ArchNames {
    ghost use Rattle.std.specs.Prelude.{ℕ, List};
    ghost use Rattle.deb_text.specs.Words.{words};

    ghost Value = { List (List ℕ) };

    ghost view = { λ names. words names.text.items };
}

impl ArchNames {
    /// Reads names that are separated by blanks. It takes the memory of their text.
    ///
    /// # Errors
    ///
    /// [`BAD_WORD`] where one of them is no word, and 900 where memory is refused. Nothing is left
    /// behind.
    pub fn parse(alloc: Global, text: &[u8]) -> Result<ArchNames, RelationError>
        ensures { Gives refusal_of (λ names. names) result (words_at text.now) }
    {
        Ok(ArchNames {
            text: keep_words(alloc, text)?,
        })
    }

    /// The text that has the names in their order, separated by blanks.
    pub fn text(&self) -> &[u8]
        ensures { words result.now ≡ self.now }
    {
        &self.text
    }

    /// Tells whether a name is the architecture's.
    pub fn matches(&self, name: &[u8]) -> bool
        ensures { result ≡ is_among self.now name.now }
    {
        has_word(&self.text, name)
    }
}

/// The build profiles that are active (BuildProfileSpec), as they are written. A contract sees
/// their list.
#[derive(Drop)]
pub struct ProfileSet {
    text: Vec<u8>,
}

impl Model for ProfileSet {
    ghost use Rattle.std.specs.Prelude.{ℕ, List};
    ghost use Rattle.deb_text.specs.Words.{words};

    ghost Value = { List (List ℕ) };

    ghost view = { λ profiles. words profiles.text.items };
}

impl ProfileSet {
    /// Reads profiles that are separated by blanks. It takes the memory of their text.
    ///
    /// # Errors
    ///
    /// [`BAD_WORD`] where one of them is no word, and 900 where memory is refused. Nothing is left
    /// behind.
    pub fn parse(alloc: Global, text: &[u8]) -> Result<ProfileSet, RelationError>
        ensures { Gives refusal_of (λ profiles. profiles) result (words_at text.now) }
    {
        Ok(ProfileSet {
            text: keep_words(alloc, text)?,
        })
    }

    /// The set without a profile. It takes no memory.
    pub fn none(alloc: Global) -> ProfileSet
        ensures { result ≡ [] }
    {
        ProfileSet {
            text: Vec::new(alloc),
        }
    }

    /// Tells whether a profile is active.
    pub fn is_active(&self, profile: &[u8]) -> bool
        ensures { result ≡ is_among self.now profile.now }
    {
        has_word(&self.text, profile)
    }
}

/// The text, where each of its words is one.
fn keep_words(alloc: Global, text: &[u8]) -> Result<Vec<u8>, RelationError>
    ensures { Gives refusal_of (λ kept. words kept.items) result (words_at text.now) }
{
    if !are_words(text) {
        return Err(RelationError { code: BAD_WORD });
    }
    Ok(Vec::from_slice(alloc, text)?)
}

/// Tells whether no word of a text has a byte that it may not have.
fn are_words(text: &[u8]) -> bool
    ensures { result ≡ list_all is_word (words text.now) }
{
    let mut rest = text;
    while let Some((word, after)) = next_word(rest) {
        if !is_word(word) {
            return false;
        }
        rest = after;
    }
    true
}

/// Tells whether a word is one of a text's.
fn has_word(text: &[u8], wanted: &[u8]) -> bool
    ensures { result ≡ is_among (words text.now) wanted.now }
{
    let mut rest = text;
    while let Some((word, after)) = next_word(rest) {
        if word == wanted {
            return true;
        }
        rest = after;
    }
    false
}
