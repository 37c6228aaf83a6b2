//! The variants that pass a test, looked for among those that an index lists.

ghost use Rattle.std.specs.Prelude.{◌≡◌, ◌==◌, ◌&&◌, ◌||◌, [], ℕ, true, false, IfOk, OnOk};
ghost use Rattle.clause_kernel.specs.Rows.{word_has};
ghost use Rattle.deb_relation.specs.Common.{Atom, is_its_own};
ghost use Rattle.farm_model.specs.Packages.{facts, is_wanted, satisfies, satisfies_entry, satisfies_any};
ghost use Rattle.sat_rows.specs.Index.{IsNaming, IsProviding};
ghost use Rattle.sat_rows.specs.Rows.{IsWordFor};
ghost use Rattle.sat_rows.specs.Found.{among, Puts, IsFound, Finds, GrowsBy, HasItems, some_atom, passes_there, shares_other, hits_other};
ghost use Rattle.sat_rows.specs.Served.{shares, hits_some};

use crate::atom_test::{AtomTest, ProvidesIt, is_bare, passes_at};
use crate::index::{Field, Provides};
use crate::word::{mask, variant_count, with_bit};
use deb_relation::{Atom, Relations};
use farm_universe::{Universe, Variant};
use item_index::{Item, ItemIndex};
use std::alloc::{AllocError, Global};
use std::marker::Model;

/// The bit of the owner of an item, where the universe has it and the alternative there passes.
fn item_word<F: Field, T: AtomTest>(
    universe: &Universe,
    field: &F,
    test: &T,
    item: &Item<Variant>,
) -> u64
    ensures { (b : ℕ) → word_has result b ≡
        (passes_there universe.now F.field (T.test test.now) item.now
        && (b == item.now.owner.bit)) }
{
    let owner = item.owner;
    if owner.bit < variant_count(universe, owner.name) {
        with_bit(
            0,
            owner.bit,
            passes_at(field.of(universe, owner), test, item),
        )
    } else {
        0
    }
}

/// The variants of a name whose version stands in the relation of an alternative.
fn wanted_word(universe: &Universe, atom: &Atom, name: u32) -> u64
    ensures { IsWordFor universe.now (is_wanted universe.now atom.now.relation) name result }
{
    mask(universe, name, atom.relation())
}

/// Variants of one name, as the bits of a word, under a number: that of their name, or of an entry.
#[derive(Clone, Copy)]
pub struct NumberWord {
    pub number: usize,
    pub word: u64,
}

/// Tells whether a word shares a bit with the one at its number.
fn shares(at: &NumberWord, words: &[u64]) -> bool
    ensures { result ≡ shares words.now at.now }
{
    match words.get(at.number) {
        Some(word) => *word & at.word != 0,
        None => false,
    }
}

/// Tells whether a word of another number shares a bit with the one at its number.
fn shares_other(at: &NumberWord, but: u32, words: &[u64]) -> bool
    ensures { result ≡ shares_other but words.now at.now }
{
    match words.get(at.number) {
        Some(word) => at.number != but as usize && *word & at.word != 0,
        None => false,
    }
}

/// Words of variants by number, perhaps more than one under a number.
#[derive(Drop)]
pub struct Found {
    words: Vec<NumberWord>,
}

impl Model for Found {
    ghost use Rattle.std.specs.Prelude.{List};
    ghost use Rattle.sat_rows.specs.declared.found.NumberWord.{NumberWord};

    ghost Value = { List NumberWord };

    ghost view = { λ found. found.words.items };
}

impl Found {
    /// No variant.
    pub fn new(alloc: Global) -> Found
        ensures { result ≡ [] }
    {
        Found {
            words: Vec::new(alloc),
        }
    }

    /// No variant, with room for so many words.
    pub fn with_room(alloc: Global, count: usize) -> Result<Found, AllocError>
        ensures { IfOk result (λ found. found ≡ []) }
    {
        Ok(Found {
            words: Vec::with_capacity(alloc, count)?,
        })
    }

    /// The variants in the order in which they were found.
    pub fn words(&self) -> &[NumberWord]
        ensures { result.now ≡ self.now }
    {
        &self.words
    }

    /// Puts a word behind the others.
    fn push(&mut self, number: usize, word: u64) -> Result<(), AllocError>
        ensures { OnOk result (Puts number word self.old self.new) }
    {
        self.words.push(NumberWord { number, word })?;
        Ok(())
    }

    /// Joins a word to the last one, if that is under this number.
    fn join(&mut self, number: usize, word: u64) -> bool
        ensures joined { result ≡ true → Puts number word self.old self.new }
        ensures kept { result ≡ false → self.new ≡ self.old }
    {
        let count = self.words.len();
        if count == 0 || self.words[count - 1].number != number {
            return false;
        }
        let word = self.words[count - 1].word | word;
        self.words[count - 1] = NumberWord { number, word };
        true
    }

    /// Puts variants under a number, if there are any.
    pub fn add(&mut self, number: usize, word: u64) -> Result<(), AllocError>
        ensures { OnOk result (Puts number word self.old self.new) }
    {
        if word == 0 || self.join(number, word) {
            return Ok(());
        }
        self.push(number, word)?;
        Ok(())
    }

    /// Puts words behind these.
    pub fn add_all(&mut self, words: &[NumberWord]) -> Result<(), AllocError>
        ensures { OnOk result ((n b : ℕ) → among self.new n b ≡ (among self.old n b
            || among words.now n b)) }
    {
        for at in words {
            self.add(at.number, at.word)?;
        }
        Ok(())
    }

    /// Tells whether some word of another number shares a bit with the one at its number.
    pub fn hits_other(&self, but: u32, words: &[u64]) -> bool
        ensures { result ≡ hits_other but words.now self.now }
    {
        self.words.iter().any(|at| shares_other(at, but, words))
    }

    /// Tells whether some word shares a bit with the one at its number.
    pub fn hits(&self, words: &[u64]) -> bool
        ensures { result ≡ hits_some words.now self.now }
    {
        self.words.iter().any(|at| shares(at, words))
    }

    /// Puts the owners of some items whose alternative passes.
    fn add_items<F: Field, T: AtomTest>(
        &mut self,
        universe: &Universe,
        field: &F,
        test: &T,
        items: &[Item<Variant>],
    ) -> Result<(), AllocError>
        ensures grows { OnOk result (GrowsBy universe.now
            (some_atom universe.now F.field (T.test test.now)) self.old self.new) }
        ensures has { OnOk result
            (HasItems universe.now F.field (T.test test.now) items.now self.new) }
    {
        for item in items {
            self.add(
                item.owner.name as usize,
                item_word(universe, field, test, item),
            )?;
        }
        Ok(())
    }

    /// Puts the variants of whose field some alternative passes, where each that passes has this
    /// name.
    fn add_listed<F: Field, T: AtomTest>(
        &mut self,
        universe: &Universe,
        index: &ItemIndex<Variant>,
        field: &F,
        test: &T,
        name: &[u8],
    ) -> Result<(), AllocError>
        requires index { IsNaming universe.now F.field index.now }
        requires named { (a : Atom) → T.test test.now a ≡ true → a.name ≡ name.now }
        ensures { OnOk result (Finds universe.now
            (some_atom universe.now F.field (T.test test.now)) self.old self.new) }
    {
        self.add_items(universe, field, test, index.listed(name))?;
        Ok(())
    }

    /// Puts the variants that have the name of an alternative, and a version in its relation.
    fn add_own(&mut self, universe: &Universe, atom: &Atom) -> Result<(), AllocError>
        ensures { OnOk result (Finds universe.now
            (λ v. is_its_own (facts universe.now v) atom.now) self.old self.new) }
    {
        let _names = universe.names();
        if let Some(name) = universe.find(atom.name()) {
            self.add(name as usize, wanted_word(universe, atom, name))?;
        }
        Ok(())
    }

    /// Puts the variants that satisfy an alternative.
    fn add_atom(
        &mut self,
        universe: &Universe,
        providers: &ItemIndex<Variant>,
        atom: &Atom,
    ) -> Result<(), AllocError>
        requires { IsProviding universe.now providers.now }
        ensures { OnOk result
            (Finds universe.now (satisfies universe.now atom.now) self.old self.new) }
    {
        if !is_bare(atom) {
            return Ok(());
        }
        self.add_own(universe, atom)?;
        let test = ProvidesIt { atom };
        self.add_listed(universe, providers, &Provides {}, &test, atom.name())?;
        Ok(())
    }

    /// Puts the variants that satisfy some alternative of an entry.
    pub fn add_entry(
        &mut self,
        universe: &Universe,
        providers: &ItemIndex<Variant>,
        entry: &[Atom],
    ) -> Result<(), AllocError>
        requires { IsProviding universe.now providers.now }
        ensures { OnOk result
            (Finds universe.now (satisfies_entry universe.now entry.now) self.old self.new) }
    {
        for atom in entry {
            self.add_atom(universe, providers, atom)?;
        }
        Ok(())
    }

    /// Puts the variants that satisfy some entry of a field.
    pub fn add_field(
        &mut self,
        universe: &Universe,
        providers: &ItemIndex<Variant>,
        field: &Relations,
    ) -> Result<(), AllocError>
        requires { IsProviding universe.now providers.now }
        ensures { OnOk result
            (Finds universe.now (satisfies_any universe.now field.now) self.old self.new) }
    {
        for entry in field.entries() {
            self.add_entry(universe, providers, entry.alternatives())?;
        }
        Ok(())
    }
}

/// The variants that satisfy an entry.
pub fn satisfying(
    alloc: Global,
    universe: &Universe,
    providers: &ItemIndex<Variant>,
    entry: &[Atom],
) -> Result<Found, AllocError>
    requires { IsProviding universe.now providers.now }
    ensures { IfOk result (IsFound universe.now (satisfies_entry universe.now entry.now)) }
{
    let mut found = Found::new(alloc);
    found.add_entry(universe, providers, entry)?;
    Ok(found)
}

/// The variants that satisfy some entry of a field.
pub fn satisfying_any(
    alloc: Global,
    universe: &Universe,
    providers: &ItemIndex<Variant>,
    field: &Relations,
) -> Result<Found, AllocError>
    requires { IsProviding universe.now providers.now }
    ensures { IfOk result (IsFound universe.now (satisfies_any universe.now field.now)) }
{
    let mut found = Found::new(alloc);
    found.add_field(universe, providers, field)?;
    Ok(found)
}
