//! Sets of places, as bits of words.

use crate::StagedBuild;
use crate::numbers::at;
use std::alloc::{AllocError, Global};

/// Places of builds, each a bit.
#[derive(Drop)]
pub(crate) struct Places {
    words: Vec<u64>,
}

/// The bit of a place in its word.
fn bit_of(place: usize) -> u64 {
    1u64.checked_shl((place % 64) as u32).unwrap_or(0)
}

impl Places {
    /// No place, of so many.
    pub(crate) fn none(alloc: Global, count: usize) -> Result<Places, AllocError> {
        let mut words = Vec::new(alloc);
        for _ in 0..count.div_ceil(64) {
            words.push(0)?;
        }
        Ok(Places { words })
    }

    /// Tells whether a place is one of them.
    pub(crate) fn has(&self, place: usize) -> bool {
        at(&self.words, place / 64, 0) & bit_of(place) != 0
    }

    /// Puts a place to them.
    pub(crate) fn add(&mut self, place: usize) {
        match self.words.get_mut(place / 64) {
            Some(word) => *word |= bit_of(place),
            None => {}
        }
    }

    /// Takes a place from them.
    pub(crate) fn remove(&mut self, place: usize) {
        match self.words.get_mut(place / 64) {
            Some(word) => *word &= !bit_of(place),
            None => {}
        }
    }

    /// Puts the places of another set to them.
    pub(crate) fn join(&mut self, other: &Places) {
        for (number, word) in other.words.iter().enumerate() {
            match self.words.get_mut(number) {
                Some(own) => *own |= *word,
                None => {}
            }
        }
    }

    /// The first of them.
    pub(crate) fn first(&self) -> Option<usize> {
        for (number, word) in self.words.iter().enumerate() {
            if *word != 0 {
                let bit = word.trailing_zeros() as usize;
                return Some(number.saturating_mul(64).saturating_add(bit));
            }
        }
        None
    }

    /// Puts the places of a word to a list.
    fn push_word(&self, list: &mut Vec<usize>, number: usize) -> Result<(), AllocError> {
        if at(&self.words, number, 0) == 0 {
            return Ok(());
        }
        for bit in 0..64 {
            let place = number.saturating_mul(64).saturating_add(bit);
            if self.has(place) {
                list.push(place)?;
            }
        }
        Ok(())
    }

    /// The places in their order.
    pub(crate) fn list(&self, alloc: Global) -> Result<Vec<usize>, AllocError> {
        let mut list = Vec::new(alloc);
        for number in 0..self.words.len() {
            self.push_word(&mut list, number)?;
        }
        Ok(list)
    }
}

/// The sum of the weights of some builds.
pub(crate) fn weight_of(builds: &[StagedBuild], places: &[usize]) -> u64 {
    let mut weight = 0u64;
    for place in places {
        match builds.get(*place) {
            Some(build) => weight = weight.saturating_add(build.weight),
            None => {}
        }
    }
    weight
}
