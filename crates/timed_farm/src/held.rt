//! Waits that nothing in the archive lets pass.

ghost use Rattle.std.specs.Prelude.{◌≡◌, ◌<◌, false};
ghost use Rattle.farm_model.specs.Packages.{names};
ghost use Rattle.plan_model.specs.Run.{archive};
ghost use Rattle.plan_model.specs.Turn as turn;
ghost use Rattle.timed_farm.specs.Held.{NoneOf, NoneAmong, NoneBy};

use deb_relation::{Atom, Entry};
use farm_archive::some_satisfies;
use farm_core::Core;
use farm_lookup::Candidates;
use item_index::Item;

/// Tells whether a variant of a name in the archive satisfies an entry.
fn has_some(core: &Core<'_>, entry: &Entry, name: u32) -> bool
    requires { name < names core.now.universe }
    ensures { result ≡ false → NoneOf core.now.universe
        (archive core.now.universe core.now.state.published) entry.now name }
{
    some_satisfies(core.universe(), name, core.word(name), entry)
}

/// Tells whether a variant of one of these names does.
fn some_has(core: &Core<'_>, entry: &Entry, items: &[Item<u32>]) -> bool
    ensures { result ≡ false → NoneAmong core.now.universe
        (archive core.now.universe core.now.state.published) entry.now items.now }
{
    for number in 0..items.len() {
        let name = items[number].owner;
        if name < core.universe().names() && has_some(core, entry, name) {
            return true;
        }
    }
    false
}

/// Tells whether a variant of a name that may satisfy an alternative of the entry does.
fn some_by(core: &Core<'_>, candidates: &Candidates, entry: &Entry, atom: &Atom) -> bool
    requires { candidates.now ≡ core.now.universe }
    ensures { result ≡ false → NoneBy core.now.universe
        (archive core.now.universe core.now.state.published) entry.now atom.now }
{
    some_has(core, entry, candidates.named(atom.name()))
}

/// Tells whether some variant in the archive may let a wait pass. Where none may, none does.
pub fn may_pass(core: &Core<'_>, candidates: &Candidates, entry: &Entry) -> bool
    requires { candidates.now ≡ core.now.universe }
    ensures { result ≡ false → turn.passes core.now.universe
        (archive core.now.universe core.now.state.published) entry.now ≡ false }
{
    let atoms = entry.alternatives();
    for number in 0..atoms.len() {
        if some_by(core, candidates, entry, &atoms[number]) {
            return true;
        }
    }
    false
}
