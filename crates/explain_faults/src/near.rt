//! Which names nearly are another, and the first of them as they are told. All of this is only
//! tested.

use deb_text::push_pieces;
use std::alloc::{AllocError, Global};

/// The most names that are told beside one that is not known.
const MOST_NEAR: usize = 3;

/// Whether the two cases of an ASCII letter are two letters.
#[derive(Clone, Copy)]
pub enum Case {
    Told,
    /// They are the same letter.
    Any,
}

impl Case {
    fn is_same(self, one: u8, two: u8) -> bool {
        match self {
            Case::Told => one == two,
            Case::Any => one.eq_ignore_ascii_case(&two),
        }
    }
}

/// Tells whether one letter more, less or other, or two neighbours exchanged, makes the other name
/// of a name: so little is left between what both begin and end with.
pub fn is_near(case: Case, name: &[u8], other: &[u8]) -> bool {
    let (mut one, mut two) = (name, other);
    for _ in name {
        match (one, two) {
            ([a, rest @ ..], [b, others @ ..]) if case.is_same(*a, *b) => {
                (one, two) = (rest, others);
            }
            _ => break,
        }
    }
    for _ in name {
        match (one, two) {
            ([rest @ .., a], [others @ .., b]) if case.is_same(*a, *b) => {
                (one, two) = (rest, others);
            }
            _ => break,
        }
    }
    match (one, two) {
        ([_], []) | ([], [_]) | ([_], [_]) => true,
        ([a, b], [c, d]) => case.is_same(*a, *d) && case.is_same(*b, *c),
        _ => false,
    }
}

/// Tells whether a name is near a word that is no name, or begins with it and a hyphen.
pub fn is_near_or_longer(word: &[u8], name: &[u8]) -> bool {
    is_near(Case::Told, word, name)
        || name.starts_with(word) && name[word.len()..].starts_with(b"-")
}

/// The first three of the names that are near another.
#[derive(Drop)]
pub struct NearNames<'a> {
    found: Vec<&'a [u8]>,
}

impl<'a> NearNames<'a> {
    /// No name.
    pub fn new(alloc: Global) -> NearNames<'a> {
        NearNames {
            found: Vec::new(alloc),
        }
    }

    /// Keeps a name that is near, unless three are kept.
    pub fn keep(&mut self, name: &'a [u8]) -> Result<(), AllocError> {
        if self.found.len() < MOST_NEAR {
            self.found.push(name)?;
        }
        Ok(())
    }

    /// Tells whether no name is kept.
    pub fn is_empty(&self) -> bool {
        self.found.is_empty()
    }

    /// Puts the names that are kept behind a text, as `; near: gcc, gcc-14`, each between two of
    /// these quotes; nothing where there is none.
    pub fn push(&self, text: &mut Vec<u8>, quote: &[u8]) -> Result<(), AllocError> {
        let mut before: &[u8] = b"; near: ";
        for name in &self.found {
            push_pieces(text, &[before, quote, *name, quote])?;
            before = b", ";
        }
        Ok(())
    }
}
