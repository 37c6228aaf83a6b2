//! Lists of variants that are being found.

use draft_search::{Lists, at, put};
use farm_universe::{Universe, Variant};
use std::alloc::{AllocError, Global};

/// How many items all lists of a kind may have. A farm whose relations have more takes more memory
/// than its texts could ask for.
pub(crate) const MOST_ITEMS: usize = 16_777_216;

/// Room for so many items.
#[derive(Drop)]
pub(crate) struct Room {
    left: usize,
}

impl Room {
    /// Room for as many as there may be.
    pub(crate) fn new() -> Room {
        Room { left: MOST_ITEMS }
    }

    /// Takes the room of an item.
    pub(crate) fn take(&mut self) -> Result<(), AllocError> {
        if self.left == 0 {
            return Err(AllocError);
        }
        self.left -= 1;
        Ok(())
    }
}

/// The number of the first variant of each name; behind the last name how many there are.
pub(crate) fn firsts(alloc: Global, universe: &Universe) -> Result<Vec<usize>, AllocError> {
    let mut first = Vec::new(alloc);
    let mut count = 0usize;
    for name in 0..universe.names() {
        first.push(count)?;
        count = count.saturating_add(universe.variants(name) as usize);
    }
    first.push(count)?;
    Ok(first)
}

/// The number of a variant, by the first ones of the names.
pub(crate) fn number_of(first: &[usize], variant: Variant) -> usize {
    at(first, variant.name as usize, usize::MAX).saturating_add(variant.bit as usize)
}

/// Lists of variants by number, in each of which a variant stands once.
#[derive(Drop)]
pub(crate) struct Found {
    first: Vec<usize>,
    lists: Lists,
    /// By variant: the list in which it was found last, from 1.
    seen: Vec<usize>,
    room: Room,
}

impl Found {
    /// No list, for a universe of so many variants.
    pub(crate) fn new(
        alloc: Global,
        universe: &Universe,
        variants: usize,
    ) -> Result<Found, AllocError> {
        Ok(Found {
            first: firsts(alloc, universe)?,
            lists: Lists::new(alloc),
            seen: vec![in alloc; 0; variants]?,
            room: Room::new(),
        })
    }

    /// Puts a variant at the end of the open list, unless it is in it.
    ///
    /// # Errors
    ///
    /// [`AllocError`] where memory is refused, or there are too many items.
    pub(crate) fn push(&mut self, variant: Variant) -> Result<(), AllocError> {
        let number = number_of(&self.first, variant);
        let list = self.lists.len().saturating_add(1);
        if at(&self.seen, number, list) == list {
            return Ok(());
        }
        put(&mut self.seen, number, list);
        self.room.take()?;
        self.lists.push(number)
    }

    /// Keeps a variant out of the open list.
    pub(crate) fn keep_out(&mut self, variant: Variant) {
        let list = self.lists.len().saturating_add(1);
        put(&mut self.seen, number_of(&self.first, variant), list);
    }

    /// Ends the open list, and gives its number.
    pub(crate) fn close(&mut self) -> Result<usize, AllocError> {
        let number = self.lists.len();
        self.lists.close()?;
        Ok(number)
    }

    /// The lists.
    pub(crate) fn lists(&self) -> &Lists {
        &self.lists
    }

    /// Gives the lists out.
    pub(crate) fn into_lists(self) -> Lists {
        let Found { lists, .. } = self;
        lists
    }
}
