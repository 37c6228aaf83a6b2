//! The distinct entries of a universe, by number, so that each has one row.

ghost use Rattle.std.specs.Prelude.{◌≡◌, ◌<◌, [], IfOk, IfSome, OnOk, None, Some, length, slice_get};
ghost use Rattle.deb_relation.specs.Relations as relations;
ghost use Rattle.sat_rows.specs.Entries.{IsGrown};

use crate::chains::Chains;
use deb_relation::{Atom, hash_of_entry, is_same_entry};
use std::alloc::{AllocError, Global};
use std::marker::Model;

/// One of the entries.
#[derive(Drop)]
struct Distinct<'a> {
    atoms: &'a [Atom],
}

impl<'a> Model for Distinct<'a> {
    ghost use Rattle.deb_relation.specs.Relations as relations;

    ghost Value = { relations.Entry };

    ghost view = { λ distinct. distinct.atoms.now };
}

/// The distinct entries. A contract sees their list.
#[derive(Drop)]
pub struct Entries<'a> {
    entries: Vec<Distinct<'a>>,
    chains: Chains,
}

impl<'a> Model for Entries<'a> {
    ghost use Rattle.std.specs.Prelude.{List};
    ghost use Rattle.deb_relation.specs.Relations as relations;

    ghost Value = { List relations.Entry };

    ghost view = { λ entries. entries.entries.items };
}

impl<'a> Entries<'a> {
    /// No entries, with places for so many and for some thousands.
    pub fn new(alloc: Global, places: usize) -> Result<Entries<'a>, AllocError>
        ensures { IfOk result (λ entries. entries ≡ []) }
    {
        Ok(Entries {
            entries: Vec::new(alloc),
            chains: Chains::new(alloc, places)?,
        })
    }

    /// How many entries there are.
    pub fn len(&self) -> usize
        ensures { result ≡ length self.now }
    {
        self.entries.len()
    }

    /// The alternatives of the entry with this number.
    pub fn entry(&self, number: usize) -> &'a [Atom]
        requires { number < length self.now }
        ensures { slice_get self.now number ≡ Some result.now }
    {
        self.entries[number].atoms
    }

    /// The number of an entry among those behind a first one.
    fn find(&self, first: usize, atoms: &[Atom]) -> Option<usize>
        ensures { IfSome result (λ number. slice_get self.now number ≡ Some atoms.now) }
    {
        let mut number = first;
        for _ in 0..self.entries.len() {
            let distinct = self.entries.get(number)?;
            if is_same_entry(distinct.atoms, atoms) {
                return Some(number);
            }
            number = self.chains.before(number);
        }
        None
    }

    /// The number of an entry, which is put behind the others where none of them is the same.
    pub fn number(&mut self, atoms: &'a [Atom]) -> Result<usize, AllocError>
        ensures grown { OnOk result (IsGrown self.old self.new) }
        ensures number { IfOk result (λ number. slice_get self.new number ≡ Some atoms.now) }
    {
        let hash = hash_of_entry(atoms);
        if let Some(number) = self.find(self.chains.last(hash), atoms) {
            return Ok(number);
        }
        let number = self.entries.len();
        self.chains.push(hash)?;
        self.entries.push(Distinct { atoms })?;
        Ok(number)
    }
}
