//! Which variants of a universe stand in a relation to which others, by way of entries.

ghost use Rattle.std.specs.Prelude.{◌≡◌, ◌&&◌, IfOk, IfSome};
ghost use Rattle.clause_kernel.specs.Rows.{word_has};
ghost use Rattle.sat_rows.specs.Found.{hits_other};
ghost use Rattle.sat_rows.specs.Links.{nth_list, reaches, IsJoined};

use crate::found::{Found, NumberWord};
use crate::joined::{Joined, MANY, all_joined, words_at};
use crate::word::has_bit;
use farm_universe::Variant;
use std::alloc::{AllocError, Global};
use std::marker::Model;

/// To which entries each variant leads, and to which variants each entry.
#[derive(Drop)]
pub struct Links {
    /// By name the numbers of the entries, each with the variants of the name.
    by_name: Vec<Found>,
    /// By entry the variants.
    by_entry: Vec<Found>,
    /// By name to whom its variants lead, where they have many entries.
    joined: Vec<Joined>,
}

impl Model for Links {
    ghost use Rattle.sat_rows.specs.Links as links;
    ghost use Rattle.sat_rows.specs.Links.{AllJoined};

    ghost Value = { links.Links };

    ghost view = { λ x. record {
      by_name = x.by_name.items;
      by_entry = x.by_entry.items;
    } };

    ghost invariant = { λ x. AllJoined (record {
      by_name = x.by_name.items;
      by_entry = x.by_entry.items;
    }) x.joined.items };
}

impl Links {
    /// The links of these lists.
    pub fn new(
        alloc: Global,
        by_name: Vec<Found>,
        by_entry: Vec<Found>,
    ) -> Result<Links, AllocError>
        ensures { IfOk result (λ x. x ≡ record {
          by_name = by_name.items;
          by_entry = by_entry.items;
        }) }
    {
        let joined = all_joined(alloc, &by_name, &by_entry)?;
        Ok(Links {
            by_name,
            by_entry,
            joined,
        })
    }

    fn entries(&self, name: u32) -> &[NumberWord]
        ensures { result.now ≡ nth_list self.now.by_name name }
    {
        words_at(&self.by_name, name as usize)
    }

    /// Tells whether an entry leads to a variant of another name that the words have.
    fn leads_to_other(&self, entry: usize, but: u32, words: &[u64]) -> bool
        ensures { result ≡ hits_other but words.now (nth_list self.now.by_entry entry) }
    {
        match self.by_entry.get(entry) {
            Some(found) => found.hits_other(but, words),
            None => false,
        }
    }

    fn is_way(&self, entry: &NumberWord, variant: Variant, words: &[u64]) -> bool
        ensures { result ≡ (word_has entry.now.word variant.bit
            && hits_other variant.name words.now (nth_list self.now.by_entry entry.now.number)) }
    {
        has_bit(entry.word, variant.bit) && self.leads_to_other(entry.number, variant.name, words)
    }

    /// To whom a variant leads, if that is one list. None is looked for where there are few
    /// entries.
    fn joined(&self, variant: Variant) -> Option<&Found>
        ensures { IfSome result (λ found. IsJoined (nth_list self.now.by_name variant.name)
            self.now.by_entry variant.bit found.now) }
    {
        if self.entries(variant.name).len() < MANY {
            return None;
        }
        match self.joined.get(variant.name as usize) {
            Some(joined) => joined.get(variant.bit),
            None => None,
        }
    }

    fn reaches_by_entries(&self, variant: Variant, words: &[u64]) -> bool
        ensures { result ≡ reaches self.now variant words.now }
    {
        self.entries(variant.name)
            .iter()
            .any(|entry| self.is_way(entry, variant, words))
    }

    /// Tells whether a variant leads to one of another name that the words have.
    pub fn reaches(&self, variant: Variant, words: &[u64]) -> bool
        ensures { result ≡ reaches self.now variant words.now }
    {
        match self.joined(variant) {
            Some(found) => found.hits_other(variant.name, words),
            None => self.reaches_by_entries(variant, words),
        }
    }
}
