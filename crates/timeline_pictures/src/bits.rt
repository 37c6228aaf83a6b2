//! Sets of numbers as words of bits.

use std::alloc::{AllocError, Global};

/// The numbers of a word.
const WORD: usize = 64;

/// A set of numbers below a count.
#[derive(Drop)]
pub(crate) struct Bits {
    words: Vec<u64>,
}

/// The word of a number's bit alone.
fn single(number: usize) -> u64 {
    1 << (number % WORD)
}

impl Bits {
    /// No number, of those below a count.
    pub(crate) fn none(alloc: Global, count: usize) -> Result<Bits, AllocError> {
        let words = vec![in alloc; 0; count / WORD + 1]?;
        Ok(Bits { words })
    }

    /// Tells whether a number is in the set.
    pub(crate) fn has(&self, number: usize) -> bool {
        match self.words.get(number / WORD) {
            Some(word) => *word & single(number) != 0,
            None => false,
        }
    }

    /// Puts a number into the set, if it is below the count.
    pub(crate) fn put(&mut self, number: usize) {
        if let Some(word) = self.words.get_mut(number / WORD) {
            *word |= single(number);
        }
    }

    /// Puts those of another set into this one.
    pub(crate) fn join(&mut self, other: &Bits) {
        let more = other.words.as_slice();
        for place in 0..more.len() {
            if let Some(word) = self.words.get_mut(place) {
                *word |= more[place];
            }
        }
    }

    /// Takes those of another set out of this one.
    pub(crate) fn leave(&mut self, other: &Bits) {
        let less = other.words.as_slice();
        for place in 0..less.len() {
            if let Some(word) = self.words.get_mut(place) {
                *word &= !less[place];
            }
        }
    }

    /// Tells whether a number is in both sets.
    pub(crate) fn meets(&self, other: &Bits) -> bool {
        let words = other.words.as_slice();
        for place in 0..words.len() {
            if let Some(word) = self.words.get(place) {
                if *word & words[place] != 0 {
                    return true;
                }
            }
        }
        false
    }
}
