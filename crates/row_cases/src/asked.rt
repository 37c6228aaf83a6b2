//! The variants that a variant excludes, or that exclude it, and those that satisfy an alternative,
//! each asked for by itself.

ghost use Rattle.std.specs.Prelude.{◌≡◌, ◌<◌};
ghost use Rattle.farm_model.specs.Common.{names, IsKnown, Universe};

use bit_rows::Row;
use deb_relation::Atom;
use farm_universe::{Universe, Variant};
use sat_rows::Tables;
use std::alloc::{AllocError, Global};

/// How variants of two names exclude each other.
#[derive(Clone, Copy)]
pub enum Exclusion {
    Conflicts,
    Breaks,
    BrokenBy,
}

/// What words of a farm's names are asked for.
trait WordsTest {
    ghost fits: { Universe → Self → Type 0 } = { λ _ _. Unit {0} };

    fn holds(&self, universe: &Universe, tables: &Tables, words: &[u64]) -> bool
        requires same { tables.now ≡ universe.now }
        requires fits { fits universe.now self.now };
}

/// Whether the words have a variant that a variant so excludes.
#[derive(Drop)]
struct Excludes {
    kind: Exclusion,
    variant: Variant,
}

impl WordsTest for Excludes {
    ghost fits = { λ u t. IsKnown u t.variant };

    fn holds(&self, _universe: &Universe, tables: &Tables, words: &[u64]) -> bool {
        match self.kind {
            Exclusion::Conflicts => tables.conflicts_with_some(self.variant, words),
            Exclusion::Breaks => tables.breaks_some(self.variant, words),
            Exclusion::BrokenBy => tables.is_broken_by_some(self.variant, words),
        }
    }
}

/// Whether all variants of some name that the words have satisfy an alternative.
#[derive(Drop)]
struct Satisfies<'a> {
    atom: &'a Atom,
}

impl WordsTest for Satisfies<'_> {
    fn holds(&self, universe: &Universe, tables: &Tables, words: &[u64]) -> bool {
        tables.has_name_inside(universe, self.atom, words)
    }
}

/// Puts a word in the place of a name's, if there is one.
fn put(words: &mut [u64], name: u32, word: u64) {
    if let Some(there) = words.get_mut(name as usize) {
        *there = word;
    }
}

/// The variants of a name for which the test holds, each by itself. The words are all 0, and left
/// so.
fn asked_word<T: WordsTest>(
    universe: &Universe,
    tables: &Tables,
    test: &T,
    words: &mut [u64],
    name: u32,
) -> u64
    requires same { tables.now ≡ universe.now }
    requires fits { T.fits universe.now test.now }
    requires named { name < names universe.now }
{
    let mut found = 0;
    for bit in 0..universe.variants(name) {
        let word = 1u64.checked_shl(bit).unwrap_or(0);
        put(words, name, word);
        if test.holds(universe, tables, words) {
            found |= word;
        }
    }
    put(words, name, 0);
    found
}

/// The variants for which the test holds, each asked for by itself.
fn asked<T: WordsTest>(
    alloc: Global,
    universe: &Universe,
    tables: &Tables,
    test: &T,
) -> Result<Row, AllocError>
    requires same { tables.now ≡ universe.now }
    requires fits { T.fits universe.now test.now }
{
    let count = universe.names() as usize;
    let mut words = Vec::from_elem(alloc, 0u64, count)?;
    let mut row = Row::new(alloc, count)?;
    for name in 0..universe.names() {
        let word = asked_word(universe, tables, test, &mut words, name);
        if (name as usize) < row.len() {
            row.set_word(name as usize, word)?;
        }
    }
    Ok(row)
}

/// The variants that a variant excludes.
pub fn excluded(
    alloc: Global,
    universe: &Universe,
    tables: &Tables,
    kind: Exclusion,
    variant: Variant,
) -> Result<Row, AllocError>
    requires same { tables.now ≡ universe.now }
    requires known { IsKnown universe.now variant }
{
    asked(alloc, universe, tables, &Excludes { kind, variant })
}

/// The variants that satisfy an alternative.
pub fn satisfying(
    alloc: Global,
    universe: &Universe,
    tables: &Tables,
    atom: &Atom,
) -> Result<Row, AllocError>
    requires { tables.now ≡ universe.now }
{
    asked(alloc, universe, tables, &Satisfies { atom })
}
