//! What the lines on several recipes end with.

use crate::about::push_number;
use crate::lists::is_same_text;
use deb_relation::Entry;
use plan_reader::push_entry;
use std::alloc::{AllocError, Global};

/// The most entries that are summed up.
const MOST_CAUSES: usize = 10;

/// The words of an entry, and with how many recipes the lines end with it.
#[derive(Drop)]
struct Cause {
    words: Vec<u8>,
    count: u64,
}

/// The entries with which the lines on recipes end.
#[derive(Drop)]
pub(crate) struct Causes {
    found: Vec<Cause>,
}

impl Causes {
    pub(crate) fn new(alloc: Global) -> Causes {
        Causes {
            found: Vec::new(alloc),
        }
    }

    /// Where an entry of these words stands, if it was counted.
    fn place_of(&self, words: &[u8]) -> Option<usize> {
        self.found
            .iter()
            .position(|cause| is_same_text(&cause.words, words))
    }

    /// Counts the entry with which the lines on a recipe end.
    pub(crate) fn add(&mut self, alloc: Global, entry: &Entry) -> Result<(), AllocError> {
        let mut words = Vec::new(alloc);
        push_entry(&mut words, entry)?;
        match self.place_of(&words) {
            Some(place) => self.count_at(place),
            None => self.found.push(Cause { words, count: 1 })?,
        }
        Ok(())
    }

    fn count_at(&mut self, place: usize) {
        if let Some(cause) = self.found.get_mut(place) {
            cause.count = cause.count.saturating_add(1);
        }
    }

    /// Puts a line on each entry of several recipes behind a text, those of most recipes first.
    pub(crate) fn push(&mut self, text: &mut Vec<u8>) -> Result<(), AllocError> {
        self.found.sort_by_key(|cause| u64::MAX - cause.count)?;
        for cause in self.found.iter().take(MOST_CAUSES) {
            if cause.count > 1 {
                text.extend_from_slice(b"  ")?;
                text.extend_from_slice(&cause.words)?;
                push_number(text, b": ", cause.count)?;
                text.extend_from_slice(b" recipes\n")?;
            }
        }
        Ok(())
    }
}
