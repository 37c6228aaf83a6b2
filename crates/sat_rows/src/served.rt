//! Which Depends and Pre-Depends entries the variants of each name satisfy, and who has them.

ghost use Rattle.std.specs.Prelude.{◌≡◌, ◌<◌, ℕ, [], List, IfOk, length, slice_get, slice_index_or};
ghost use Rattle.deb_relation.specs.Relations.{Entry};
ghost use Rattle.sat_rows.specs.Entries.{AreVariantNumbers};
ghost use Rattle.sat_rows.specs.Links.{nth_list, AreSets};
ghost use Rattle.sat_rows.specs.Served.{AreLong, IsServing, hits_some, is_unmet, is_missed_by, misses};

use crate::found::{Found, NumberWord};
use crate::joined::words_at;
use crate::numbers::NameNumbers;
use crate::turned::turned;
use crate::wanted::all_wanted;
use crate::word::{meets, word_of};
use bit_rows::Row;
use farm_universe::Universe;
use std::alloc::{AllocError, Global};
use std::marker::Model;

/// Which entries the variants of each name satisfy, and who has each entry.
#[derive(Drop)]
pub struct Served {
    /// By name the numbers of the entries, each with the variants of the name that satisfy it.
    satisfied: Vec<Found>,
    /// By entry the variants that have it.
    owners: Vec<Found>,
}

impl Model for Served {
    ghost use Rattle.sat_rows.specs.Links as links;

    ghost Value = { links.Links };

    ghost view = { λ x. record { by_name = x.satisfied.items; by_entry = x.owners.items } };
}

/// Tells whether there is a row of this number, and no name of the words meets it.
fn is_unmet(rows: &[Row], number: usize, words: &[u64]) -> bool
    requires { (k : ℕ) → k < length rows.now
        → length words.now ≡ length (slice_index_or rows.now k []) }
    ensures { result ≡ is_unmet words.now (slice_get rows.now number) }
{
    match rows.get(number) {
        Some(row) => !row.is_met_by(words),
        None => false,
    }
}

impl Served {
    /// Puts together who satisfies which entries and who has them, from the numbers of the entries
    /// and the variants that satisfy each.
    pub fn build(
        alloc: Global,
        universe: &Universe,
        names: &[NameNumbers],
        sets: &[Found],
    ) -> Result<Served, AllocError>
        requires { AreLong universe.now names.now }
        ensures { (entries : List Entry) → AreVariantNumbers universe.now entries names.now
            → AreSets universe.now entries sets.now → IfOk result (IsServing universe.now entries) }
    {
        let noted = all_wanted(alloc, universe, names)?;
        let owners = turned(alloc, &noted, sets.len())?;
        let satisfied = turned(alloc, sets, universe.names() as usize)?;
        Ok(Served { satisfied, owners })
    }

    /// Tells whether the words have a variant with the entry of this number.
    fn is_wanted(&self, number: usize, words: &[u64]) -> bool
        ensures { result ≡ hits_some words.now (nth_list self.now.by_entry number) }
    {
        match self.owners.get(number) {
            Some(found) => found.hits(words),
            None => false,
        }
    }

    /// Tells whether the words have a variant with an entry that the word satisfies, and that no
    /// name of the words meets. `own` is the word among them of the name that the entry is listed
    /// under: what that name itself meets needs no look at the owners and the row.
    fn is_missed_by(
        &self,
        rows: &[Row],
        word: u64,
        own: u64,
        words: &[u64],
        at: &NumberWord,
    ) -> bool
        requires { (k : ℕ) → k < length rows.now
            → length words.now ≡ length (slice_index_or rows.now k []) }
        ensures { result ≡ is_missed_by self.now rows.now word own words.now at.now }
    {
        word & at.word != 0
            && !meets(own, at.word)
            && self.is_wanted(at.number, words)
            && is_unmet(rows, at.number, words)
    }

    /// Tells whether the words have a variant with an entry that a variant of the name satisfies,
    /// one that the word has, and that no name of the words meets. `rows` are those of the entries.
    pub fn misses(&self, rows: &[Row], name: u32, word: u64, words: &[u64]) -> bool
        requires { (k : ℕ) → k < length rows.now
            → length words.now ≡ length (slice_index_or rows.now k []) }
        ensures { result ≡ misses self.now rows.now name word words.now }
    {
        let own = word_of(words, name);
        for at in words_at(&self.satisfied, name as usize) {
            if self.is_missed_by(rows, word, own, words, at) {
                return true;
            }
        }
        false
    }
}
