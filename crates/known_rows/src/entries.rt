//! Numbers for the entries that the waits of a plan name.

ghost use Rattle.std.specs.Prelude.{◌≡◌, ◌<◌, [], Some, IsTrue, length, slice_get, IfOk, OnOk};
ghost use Rattle.known_rows.specs.Entries.{IsLonger};

use deb_relation::{Entry, hash_of_entry, is_same_entry};
use std::alloc::{AllocError, Global};
use std::marker::Model;

/// How many slots there are, by the hash of an entry.
const SLOTS: usize = 8192;

/// An entry that a wait names.
#[derive(Drop)]
struct Named<'p> {
    entry: &'p Entry,
}

impl<'p> Model for Named<'p> {
    ghost use Rattle.deb_relation.specs.Relations as spec;

    ghost Value = { spec.Entry };

    ghost view = { λ named. named.entry.now };
}

/// The entries that waits name, by number. An entry that comes again mostly has the number that it
/// had: where two entries share a slot, the later one takes it.
#[derive(Drop)]
pub struct Entries<'p> {
    entries: Vec<Named<'p>>,
    slots: Vec<usize>,
}

impl<'p> Model for Entries<'p> {
    ghost use Rattle.std.specs.Prelude.{List};
    ghost use Rattle.deb_relation.specs.Relations as spec;

    ghost Value = { List spec.Entry };

    ghost view = { λ entries. entries.entries.items };
}

impl<'p> Entries<'p> {
    /// Makes the empty list of entries.
    pub fn new(alloc: Global) -> Result<Entries<'p>, AllocError>
        ensures { IfOk result (λ entries. entries ≡ []) }
    {
        Ok(Entries {
            entries: Vec::new(alloc),
            slots: vec![in alloc; 0; SLOTS]?,
        })
    }

    /// How many entries there are.
    pub fn len(&self) -> usize
        ensures { result ≡ length self.now }
    {
        self.entries.len()
    }

    /// The entry of a number.
    pub fn entry(&self, number: usize) -> &Entry
        requires { number < length self.now }
        ensures { slice_get self.now number ≡ Some result.now }
    {
        self.entries[number].entry
    }

    /// Tells whether the entry of a number is known to be this one.
    fn is_at(&self, number: usize, entry: &Entry) -> bool
        ensures { IsTrue result → slice_get self.now number ≡ Some entry.now }
    {
        number < self.entries.len()
            && is_same_entry(
                self.entries[number].entry.alternatives(),
                entry.alternatives(),
            )
    }

    /// The number of an entry, which is put behind the others where it is not known to be there.
    pub fn number(&mut self, entry: &'p Entry) -> Result<usize, AllocError>
        ensures at { IfOk result (λ number. slice_get self.new number ≡ Some entry.now) }
        ensures longer { IsLonger self.old self.new }
    {
        let slot = (hash_of_entry(entry.alternatives()) % SLOTS as u64) as usize;
        if slot < self.slots.len() && self.is_at(self.slots[slot], entry) {
            return Ok(self.slots[slot]);
        }
        let number = self.entries.len();
        self.entries.push(Named { entry })?;
        if slot < self.slots.len() {
            self.slots[slot] = number;
        }
        Ok(number)
    }
}
