//! Whether something in a farm meets an entry.

ghost use Rattle.std.specs.Prelude.{◌≡◌, ◌<◌, true, false};
ghost use Rattle.farm_model.specs.Common.{some_below, names, variant, variants, satisfies};
ghost use Rattle.farm_lookup.specs.Candidates.{NoneAmong, NoneOf, has_variant};
ghost use Rattle.farm_lookup.specs.Unmet.{is_met};

use crate::candidates::Candidates;
use deb_relation::{Atom, Entry};
use farm_universe::{Universe, Variant};
use item_index::Item;

/// Tells whether some variant of a name satisfies an alternative.
fn some_satisfies(universe: &Universe, atom: &Atom, name: u32) -> bool
    requires { name < names universe.now }
    ensures { result ≡ some_below (variants universe.now name)
        (λ b. satisfies universe.now atom.now (variant name b)) }
{
    for bit in 0..universe.variants(name) {
        if universe.satisfies(Variant { name, bit }, atom) {
            return true;
        }
    }
    false
}

/// The same: what that says of the universe.
fn has_some(universe: &Universe, atom: &Atom, name: u32) -> bool
    requires { name < names universe.now }
    ensures found { result ≡ true → has_variant universe.now atom.now ≡ true }
    ensures none { result ≡ false → NoneOf universe.now atom.now name }
{
    some_satisfies(universe, atom, name)
}

/// Tells whether a variant of one of these names does.
fn some_has(universe: &Universe, atom: &Atom, items: &[Item<u32>]) -> bool
    ensures found { result ≡ true → has_variant universe.now atom.now ≡ true }
    ensures none { result ≡ false → NoneAmong universe.now atom.now items.now }
{
    for number in 0..items.len() {
        let name = items[number].owner;
        if name < universe.names() && has_some(universe, atom, name) {
            return true;
        }
    }
    false
}

/// Tells whether some variant of the universe satisfies an alternative.
fn some_by(universe: &Universe, candidates: &Candidates, atom: &Atom) -> bool
    requires { candidates.now ≡ universe.now }
    ensures { result ≡ has_variant universe.now atom.now }
{
    some_has(universe, atom, candidates.named(atom.name()))
}

/// Tells whether some variant of the universe satisfies an entry. What is found under the name of an
/// alternative is asked of that one alone: an entry may have many.
pub fn is_met(universe: &Universe, candidates: &Candidates, entry: &Entry) -> bool
    requires { candidates.now ≡ universe.now }
    ensures { result ≡ is_met universe.now entry.now }
{
    let atoms = entry.alternatives();
    for number in 0..atoms.len() {
        if some_by(universe, candidates, &atoms[number]) {
            return true;
        }
    }
    false
}
