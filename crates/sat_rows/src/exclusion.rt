//! Whom each variant names in a field, and who names it there.

ghost use Rattle.std.specs.Prelude.{◌≡◌, ◌||◌, IfOk};
ghost use Rattle.sat_rows.specs.Index.{IsProviding};
ghost use Rattle.sat_rows.specs.Links.{reaches, AreBoth, IsExclusion};

use crate::entries::Entries;
use crate::found::Found;
use crate::index::{Field, entries};
use crate::links::Links;
use crate::sets::all_sets;
use crate::turned::turned;
use farm_universe::{Universe, Variant};
use item_index::ItemIndex;
use std::alloc::{AllocError, Global};
use std::marker::Model;
use std::thread::Threads;

/// Whom each variant names in a field, and who names it there.
#[derive(Drop)]
pub struct Exclusion {
    /// To whom the entries of its own field lead.
    pub declared: Links,
    /// To those who have an entry in the field that it satisfies.
    pub declaring: Links,
}

impl Model for Exclusion {
    ghost use Rattle.sat_rows.specs.Links as links;

    ghost Value = { links.Exclusion };

    ghost view = { λ x. record { declared = x.declared; declaring = x.declaring } };
}

/// Who has which entries in a field, and who satisfies these, from the numbers of the entries.
fn exclusion_of(
    alloc: Global,
    names: usize,
    noted: Vec<Found>,
    sets: Vec<Found>,
) -> Result<Exclusion, AllocError>
    ensures { IfOk result (λ x. AreBoth names noted.items sets.items x) }
{
    let satisfied = turned(alloc, &sets, names)?;
    let owners = turned(alloc, &noted, sets.len())?;
    let declaring = Links::new(alloc, satisfied, owners)?;
    let declared = Links::new(alloc, noted, sets)?;
    Ok(Exclusion {
        declared,
        declaring,
    })
}

impl Exclusion {
    /// Finds whom each variant names in a field, and who names it, by as many threads as there are
    /// processors.
    pub fn build<F: Field>(
        rt: &(impl Threads + Sync),
        alloc: Global,
        universe: &Universe,
        providers: &ItemIndex<Variant>,
        field: &F,
    ) -> Result<Exclusion, AllocError>
        requires { IsProviding universe.now providers.now }
        ensures { IfOk result (IsExclusion universe.now F.field) }
    {
        let mut entries = Entries::new(alloc, entries(universe, field))?;
        let noted = entries.noted(alloc, universe, field)?;
        let sets = all_sets(rt, alloc, universe, providers, &entries)?;
        exclusion_of(alloc, universe.names() as usize, noted, sets)
    }

    /// Tells whether the words have a variant of another name that this one names.
    pub fn names_some(&self, variant: Variant, words: &[u64]) -> bool
        ensures { result ≡ reaches self.now.declared variant words.now }
    {
        self.declared.reaches(variant, words)
    }

    /// Tells whether the words have a variant of another name that names this one.
    pub fn is_named(&self, variant: Variant, words: &[u64]) -> bool
        ensures { result ≡ reaches self.now.declaring variant words.now }
    {
        self.declaring.reaches(variant, words)
    }

    /// Tells whether the words have a variant of another name where one of both names the other.
    pub fn has_some(&self, variant: Variant, words: &[u64]) -> bool
        ensures { result ≡ (reaches self.now.declared variant words.now
            || reaches self.now.declaring variant words.now) }
    {
        self.names_some(variant, words) || self.is_named(variant, words)
    }
}
