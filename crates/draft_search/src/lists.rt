//! Lists of numbers, one after the other in one piece of memory.

use std::alloc::{AllocError, Global};

/// Lists by number, from 0. Items go to the list that is open, until it is closed.
#[derive(Drop)]
pub struct Lists {
    ends: Vec<usize>,
    items: Vec<usize>,
}

/// The item of a number; another value past the last one.
pub fn at<T: Copy>(items: &[T], number: usize, other: T) -> T {
    match items.get(number) {
        Some(item) => *item,
        None => other,
    }
}

/// Writes the item of a number. Past the last one it does nothing.
pub fn put<T: Copy>(items: &mut [T], number: usize, item: T) {
    if number < items.len() {
        items[number] = item;
    }
}

impl Lists {
    /// No list, and an open one without items.
    pub fn new(alloc: Global) -> Lists {
        Lists {
            ends: Vec::new(alloc),
            items: Vec::new(alloc),
        }
    }

    /// Puts an item at the end of the open list.
    pub fn push(&mut self, item: usize) -> Result<(), AllocError> {
        self.items.push(item)?;
        Ok(())
    }

    /// Ends the open list, and opens the next one.
    pub fn close(&mut self) -> Result<(), AllocError> {
        let end = self.items.len();
        self.ends.push(end)?;
        Ok(())
    }

    /// How many lists were closed.
    pub fn len(&self) -> usize {
        self.ends.len()
    }

    /// Tells whether no list was closed.
    pub fn is_empty(&self) -> bool {
        self.ends.is_empty()
    }

    /// The items from a place on.
    fn between(&self, begin: usize, end: usize) -> &[usize] {
        if begin <= end && end <= self.items.len() {
            &self.items[begin..end]
        } else {
            &[]
        }
    }

    /// Where the list of a number begins.
    fn begin(&self, number: usize) -> usize {
        if number == 0 {
            0
        } else {
            at(&self.ends, number - 1, 0)
        }
    }

    /// The items of a closed list; none past the last one.
    pub fn of(&self, number: usize) -> &[usize] {
        self.between(self.begin(number), at(&self.ends, number, 0))
    }

    /// The items of the list that is open.
    pub fn opened(&self) -> &[usize] {
        self.between(self.begin(self.ends.len()), self.items.len())
    }
}
