//! How often words are named.

use deb_text::{Class, has};
use explain_faults::Pushed;
use indexmap::IndexMap;
use indexmap::map::Slice;
use std::alloc::Global;

/// The line that names a word first, and how often it is named.
#[derive(Clone, Copy)]
pub struct Mentions {
    pub first: u64,
    pub count: u64,
}

/// Words that are named, in the order in which they came.
#[derive(Drop)]
pub struct Tally {
    alloc: Global,
    named: IndexMap<Vec<u8>, Mentions>,
}

impl Tally {
    /// No word.
    pub fn new(alloc: Global) -> Tally {
        let named = IndexMap::new(alloc);
        Tally { alloc, named }
    }

    /// The words.
    pub fn all(&self) -> Slice<'_, Vec<u8>, Mentions> {
        self.named.as_slice()
    }

    /// How a word is named, if it is.
    pub fn get(&self, word: &[u8]) -> Option<Mentions> {
        self.named.get(word).copied()
    }

    /// Looks out for a word, which is not named yet.
    pub fn expect(&mut self, word: &[u8]) -> Pushed {
        if self.get(word).is_none() {
            let none = Mentions { first: 0, count: 0 };
            self.named.insert(Vec::from_slice(self.alloc, word)?, none)?;
        }
        Ok(())
    }

    /// Notes that a word is named at a line, if it is looked out for: others are not kept.
    pub fn note(&mut self, line: u64, word: &[u8]) {
        if let Some(named) = self.named.get_mut(word) {
            if named.count == 0 {
                named.first = line;
            }
            named.count = named.count.saturating_add(1);
        }
    }

    /// Notes so each word of a text.
    pub fn note_words(&mut self, line: u64, text: &[u8]) {
        for word in text.split(|byte| has(Class::Blank, *byte)) {
            self.note(line, word);
        }
    }

    /// Notes that a word is named at a line.
    fn add(&mut self, line: u64, word: &[u8]) -> Pushed {
        let first = line;
        let before = self.get(word).unwrap_or(Mentions { first, count: 0 });
        let named = Mentions {
            first: before.first,
            count: before.count.saturating_add(1),
        };
        self.named
            .insert(Vec::from_slice(self.alloc, word)?, named)?;
        Ok(())
    }

    /// Notes that each word of a text is named at a line.
    pub fn add_words(&mut self, line: u64, text: &[u8]) -> Pushed {
        for word in text.split(|byte| has(Class::Blank, *byte)) {
            if !word.is_empty() {
                self.add(line, word)?;
            }
        }
        Ok(())
    }
}
