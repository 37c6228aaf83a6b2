//! A relation field: its entries, and the alternatives of each.

ghost use Rattle.std.specs.Prelude.{◌≡◌, ◌==◌, ◌<◌, length, Some, slice_get};

use crate::atom::Atom;
use std::alloc::AllocError;
use std::marker::Model;

/// The alternatives of an entry, any of which will do. A contract sees their list.
#[derive(Drop)]
pub struct Entry {
    alternatives: Vec<Atom>,
}

impl Model for Entry {
    ghost use Rattle.deb_relation.specs.Relations as spec;

    ghost Value = { spec.Entry };

    ghost view = { λ entry. entry.alternatives.items };
}

impl Entry {
    /// Makes an entry of its alternatives.
    pub fn from_alternatives(alternatives: Vec<Atom>) -> Entry
        ensures { result ≡ alternatives.items }
    {
        Entry { alternatives }
    }

    /// How many alternatives the entry has.
    pub fn len(&self) -> usize
        ensures { result ≡ length self.now }
    {
        self.alternatives.len()
    }

    /// Tells whether the entry has no alternative. None that was read is so.
    pub fn is_empty(&self) -> bool
        ensures { result ≡ (length self.now == 0) }
    {
        self.alternatives.is_empty()
    }

    /// The alternative of a number below `len`.
    pub fn alternative(&self, number: usize) -> &Atom
        requires { number < length self.now }
        ensures { slice_get self.now number ≡ Some result.now }
    {
        &self.alternatives[number]
    }

    /// The alternatives in their order.
    pub fn alternatives(&self) -> &[Atom]
        ensures { result.now ≡ self.now }
    {
        &self.alternatives
    }
}

impl Clone for Entry {
    ghost is_clone = { λ entry copy. copy ≡ entry };

    fn clone(&self) -> Result<Entry, AllocError> {
        Ok(Entry {
            alternatives: self.alternatives.clone()?,
        })
    }
}

/// The entries of a relation field, all of which are wanted. A contract sees their list.
#[derive(Drop)]
pub struct Relations {
    entries: Vec<Entry>,
}

impl Model for Relations {
    ghost use Rattle.deb_relation.specs.Relations as spec;

    ghost Value = { spec.Relations };

    ghost view = { λ relations. relations.entries.items };
}

impl Relations {
    /// Makes a field of its entries.
    pub fn from_entries(entries: Vec<Entry>) -> Relations
        ensures { result ≡ entries.items }
    {
        Relations { entries }
    }

    /// How many entries the field has.
    pub fn len(&self) -> usize
        ensures { result ≡ length self.now }
    {
        self.entries.len()
    }

    /// Tells whether the field has no entry.
    pub fn is_empty(&self) -> bool
        ensures { result ≡ (length self.now == 0) }
    {
        self.entries.is_empty()
    }

    /// The entry of a number below `len`.
    pub fn entry(&self, number: usize) -> &Entry
        requires { number < length self.now }
        ensures { slice_get self.now number ≡ Some result.now }
    {
        &self.entries[number]
    }

    /// The entries in their order.
    pub fn entries(&self) -> &[Entry]
        ensures { result.now ≡ self.now }
    {
        &self.entries
    }

    /// Takes the entries out.
    pub fn into_entries(self) -> Vec<Entry>
        ensures { result.items ≡ self }
    {
        self.entries
    }
}

impl Clone for Relations {
    ghost is_clone = { λ relations copy. copy ≡ relations };

    fn clone(&self) -> Result<Relations, AllocError> {
        Ok(Relations {
            entries: self.entries.clone()?,
        })
    }
}
