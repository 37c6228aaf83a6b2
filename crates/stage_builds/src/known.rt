//! What is known of numbers, once it was looked at.

use std::alloc::{AllocError, Global};

/// Yes or no, by number.
#[derive(Drop)]
pub(crate) struct Known {
    answers: Vec<Option<bool>>,
}

impl Known {
    /// Nothing is known.
    pub(crate) fn new(alloc: Global) -> Known {
        Known {
            answers: Vec::new(alloc),
        }
    }

    /// The answer for a number, if it is known.
    pub(crate) fn get(&self, number: u32) -> Option<bool> {
        match self.answers.get(number as usize) {
            Some(answer) => *answer,
            None => None,
        }
    }

    /// Keeps the answer for a number.
    pub(crate) fn set(&mut self, number: u32, answer: bool) -> Result<(), AllocError> {
        for _ in self.answers.len()..=number as usize {
            self.answers.push(None)?;
        }
        if let Some(known) = self.answers.get_mut(number as usize) {
            *known = Some(answer);
        }
        Ok(())
    }
}

/// Numbers that were seen in the round that goes on.
#[derive(Drop)]
pub(crate) struct Seen {
    rounds: Vec<u64>,
    round: u64,
}

impl Seen {
    /// No number was seen.
    pub(crate) fn new(alloc: Global) -> Seen {
        Seen {
            rounds: Vec::new(alloc),
            round: 0,
        }
    }

    /// Begins the next round, in which none was seen.
    pub(crate) fn begin(&mut self) {
        self.round = self.round.saturating_add(1);
    }

    /// Sees a number. Tells whether that is new in this round.
    pub(crate) fn see(&mut self, number: u32) -> Result<bool, AllocError> {
        for _ in self.rounds.len()..=number as usize {
            self.rounds.push(0)?;
        }
        match self.rounds.get_mut(number as usize) {
            Some(round) => {
                let is_new = *round != self.round;
                *round = self.round;
                Ok(is_new)
            }
            None => Ok(false),
        }
    }
}
