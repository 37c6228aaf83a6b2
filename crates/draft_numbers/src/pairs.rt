//! Pairs of variants, listed by the first of each.

use crate::found::Room;
use draft_search::Lists;
use std::alloc::{AllocError, Global};

/// By variant: those that stand in pairs with it.
#[derive(Drop)]
pub(crate) struct Pairs {
    of: Vec<Vec<usize>>,
    room: Room,
}

impl Pairs {
    /// No pair, of so many variants.
    pub(crate) fn new(alloc: Global, variants: usize) -> Result<Pairs, AllocError> {
        let mut of = Vec::new(alloc);
        for _ in 0..variants {
            of.push(Vec::new(alloc))?;
        }
        Ok(Pairs {
            of,
            room: Room::new(),
        })
    }

    /// Puts a pair in.
    ///
    /// # Errors
    ///
    /// [`AllocError`] where memory is refused, or there are too many pairs.
    pub(crate) fn add(&mut self, first: usize, second: usize) -> Result<(), AllocError> {
        match self.of.get_mut(first) {
            Some(others) => {
                self.room.take()?;
                others.push(second)?;
            }
            None => {}
        }
        Ok(())
    }

    /// Puts a pair in, and its turned one.
    ///
    /// # Errors
    ///
    /// [`AllocError`] where memory is refused, or there are too many pairs.
    pub(crate) fn add_both(&mut self, first: usize, second: usize) -> Result<(), AllocError> {
        self.add(first, second)?;
        self.add(second, first)
    }

    /// The lists, each in the order of the numbers, each number once.
    pub(crate) fn into_lists(self, alloc: Global) -> Result<Lists, AllocError> {
        let Pairs { of, .. } = self;
        let mut lists = Lists::new(alloc);
        for mut others in of {
            others.sort()?;
            for other in &others {
                if lists.opened().last() != Some(other) {
                    lists.push(*other)?;
                }
            }
            lists.close()?;
        }
        Ok(lists)
    }
}
