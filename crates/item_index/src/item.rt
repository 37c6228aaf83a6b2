//! Where an alternative stands in a relation field.

ghost use Rattle.std.specs.Prelude.{◌≡◌};
ghost use Rattle.std.specs.Option.{option_map};
ghost use Rattle.item_index.specs.Items.{item_of};

use deb_relation::{Atom, Relations};

/// The place of an alternative in a field of its owner.
#[derive(Clone, Copy)]
pub struct Item<O> {
    pub owner: O,
    /// The number of its entry.
    pub entry: usize,
    /// Its number in the entry.
    pub alternative: usize,
}

impl<O> Item<O> {
    /// The alternative at this place of a field, if the field has one there.
    pub fn of<'a>(&self, field: &'a Relations) -> Option<&'a Atom>
        ensures { option_map (λ atom. atom.now) result ≡ item_of self.now field.now }
    {
        match field.entries().get(self.entry) {
            Some(entry) => entry.alternatives().get(self.alternative),
            None => None,
        }
    }
}
