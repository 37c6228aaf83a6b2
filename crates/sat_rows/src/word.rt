//! The variants of one name that pass a test, as a word.

ghost use Rattle.std.specs.Prelude.{◌≡◌, ◌<◌, ◌≤◌, ◌-◌, ◌^◌, ◌==◌, not, ◌&&◌, ◌||◌, ℕ, true, false, nat_lt, slice_index, Some};
ghost use Rattle.clause_kernel.specs.Kernels.{meets};
ghost use Rattle.clause_kernel.specs.Rows.{word_has};
ghost use Rattle.farm_model.specs.Packages.{variants, is_wanted};
ghost use Rattle.sat_rows.specs.Rows.{IsWordFor};
ghost use Rattle.sat_rows.specs.Ranges.{is_before, IsCountBefore, IsRange};

use deb_relation::Op;
use deb_version::VersionRef;
use farm_universe::relations::VariantTest;
use farm_universe::{Universe, Variant};
use std::cmp::Ordering;

/// How many variants a name has: none where the universe does not have the name.
#[tactic(auto, using(farm_universe::proofs::PlaceLaws::no_variants))]
pub fn variant_count(universe: &Universe, name: u32) -> u32
    ensures number { result ≡ variants universe.now name }
    ensures few { result ≤ 64 }
{
    if name < universe.names() {
        universe.variants(name)
    } else {
        0
    }
}

/// The word, with a bit more if that holds.
pub fn with_bit(word: u64, bit: u32, holds: bool) -> u64
    requires { bit < 64 }
    ensures { (b : ℕ) → word_has result b ≡ (word_has word b || (holds && (b == bit))) }
{
    if holds { word | 1 << bit } else { word }
}

/// Tells whether a bit of a word is set.
pub fn has_bit(word: u64, bit: u32) -> bool
    ensures { result ≡ word_has word bit }
{
    bit < 64 && word & 1 << bit != 0
}

/// The word of a name, 0 where there is no such name.
pub fn word_of(words: &[u64], name: u32) -> u64
    ensures { result ≡ slice_index words.now name }
{
    match words.get(name as usize) {
        Some(word) => *word,
        None => 0,
    }
}

/// Tells whether a word has variants, and all of them are in another.
pub fn meets(word: u64, other: u64) -> bool
    ensures { result ≡ meets word other }
{
    word != 0 && word & other == word
}

/// The variants of a name that pass a test.
pub fn word_for<T: VariantTest>(universe: &Universe, name: u32, test: &T) -> u64
    requires { T.fits universe.now test.now }
    ensures { IsWordFor universe.now (T.test universe.now test.now) name result }
{
    let count = variant_count(universe, name);
    let mut word = 0;
    for bit in 0..count {
        let holds = test.passes(universe, Variant { name, bit });
        word = with_bit(word, bit, holds);
    }
    word
}

/// The bits below a number.
fn bits_below(count: u32) -> u64
    requires { count ≤ 64 }
    ensures { result ≡ 2 ^ count - 1 }
{
    if count == 64 {
        u64::MAX
    } else {
        (1 << count) - 1
    }
}

/// The bits from one up to another.
fn bits_between(low: u32, high: u32) -> u64
    requires order { low ≤ high }
    requires within { high ≤ 64 }
    ensures { (b : ℕ) → word_has result b ≡ (not (nat_lt b low) && nat_lt b high) }
{
    bits_below(high) - bits_below(low)
}

/// Tells whether an order is that of an earlier version, or perhaps of one as early.
fn is_before(order: Ordering, or_equal: bool) -> bool
    ensures { result ≡ is_before or_equal order }
{
    if or_equal {
        order.is_le()
    } else {
        order.is_lt()
    }
}

/// How many variants of a name are earlier than a version, or perhaps as early. They stand in the
/// order of their versions, so a few of them are looked at.
fn count_before(universe: &Universe, name: u32, bound: &VersionRef, or_equal: bool) -> u32
    ensures { IsCountBefore universe.now name bound.now or_equal result }
{
    if name >= universe.names() {
        return 0;
    }
    let mut low = 0;
    let mut high = universe.variants(name);
    while low < high {
        let bit = low + (high - low) / 2;
        let version = universe.version(Variant { name, bit });
        if is_before(version.view().compare(bound), or_equal) {
            low = bit + 1;
        } else {
            high = bit;
        }
    }
    low
}

/// How many variants of a name are earlier than a version, and how many are as early at most. They
/// stand in the order of their versions, so a few of them are looked at, and one at most is equal.
fn equal_range(universe: &Universe, name: u32, bound: &VersionRef) -> (u32, u32)
    ensures earlier { IsCountBefore universe.now name bound.now false result.0 }
    ensures or_equal { IsCountBefore universe.now name bound.now true result.1 }
{
    if name >= universe.names() {
        return (0, 0);
    }
    let mut low = 0;
    let mut high = universe.variants(name);
    while low < high {
        let bit = low + (high - low) / 2;
        let version = universe.version(Variant { name, bit });
        match version.view().compare(bound) {
            Ordering::Less => low = bit + 1,
            Ordering::Equal => return (bit, bit + 1),
            Ordering::Greater => high = bit,
        }
    }
    (low, low)
}

/// The first bit of the variants of a name whose version stands in a relation, and the one behind
/// the last.
fn range_of(universe: &Universe, name: u32, op: Op, bound: &VersionRef) -> (u32, u32)
    ensures { IsRange universe.now name (Some (op, bound.now)) result.0 result.1 }
{
    match op {
        Op::Earlier => (0, count_before(universe, name, bound, false)),
        Op::EarlierOrEqual => (0, count_before(universe, name, bound, true)),
        Op::Equal => equal_range(universe, name, bound),
        Op::LaterOrEqual => (
            count_before(universe, name, bound, false),
            variant_count(universe, name),
        ),
        Op::Later => (
            count_before(universe, name, bound, true),
            variant_count(universe, name),
        ),
    }
}

/// The variants of a name whose version stands in a relation (Debian Policy 7.1), as a word. In
/// none, all do. The call takes no memory.
pub fn mask(universe: &Universe, name: u32, relation: Option<(Op, VersionRef)>) -> u64
    ensures { IsWordFor universe.now (is_wanted universe.now relation.entry) name result }
{
    let count = variant_count(universe, name);
    match relation {
        None => bits_between(0, count),
        Some((op, bound)) => {
            let (low, high) = range_of(universe, name, op, &bound);
            bits_between(low, high)
        }
    }
}
