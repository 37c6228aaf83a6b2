//! Words, each once.

ghost use Rattle.std.specs.Prelude.{◌≡◌, [], OnOk, bytes_eq};
ghost use Rattle.deb_text.specs.Groups.{with_key};
ghost use Rattle.deb_profile.specs.Restriction.{is_among};

use crate::spelling::Pushed;
use indexmap::IndexSet;
use std::alloc::Global;
use std::marker::Model;

/// Words, each once. A contract sees their list, in the order in which they came.
#[derive(Drop)]
pub struct WordSet {
    alloc: Global,
    words: IndexSet<Vec<u8>>,
}

impl Model for WordSet {
    ghost use Rattle.std.specs.Prelude.{ℕ, List};
    ghost use Rattle.deb_text.specs.Lists.{lists};

    ghost Value = { List (List ℕ) };

    ghost view = { λ set. lists set.words.keys };
}

impl WordSet {
    /// A set without a word.
    pub fn new(alloc: Global) -> WordSet
        ensures { result ≡ [] }
    {
        let words = IndexSet::new(alloc);
        WordSet { alloc, words }
    }

    /// Tells whether a word is in the set.
    pub fn has(&self, word: &[u8]) -> bool
        ensures { result ≡ is_among self.now word.now }
    {
        self.words.contains(word)
    }

    /// Puts a word into the set, unless it is there.
    pub fn add(&mut self, word: &[u8]) -> Pushed
        ensures { OnOk result (self.new ≡ with_key bytes_eq self.old word.now) }
    {
        if !self.has(word) {
            self.words.insert(Vec::from_slice(self.alloc, word)?)?;
        }
        Ok(())
    }
}
