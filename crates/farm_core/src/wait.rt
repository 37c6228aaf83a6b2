//! Whether a wait passes.

ghost use Rattle.std.specs.Prelude.{◌≡◌, true};
ghost use Rattle.farm_model.specs.Packages.{has_bit};
ghost use Rattle.plan_model.specs.Turn as turn;

use deb_relation::Entry;
use farm_archive::{PlainArchive, some_satisfies};
use farm_universe::Universe;

/// Tells whether some variant of a name that the entry names is in the archive and satisfies it.
fn named_passes(universe: &Universe, archive: &PlainArchive, entry: &Entry) -> bool
    ensures { result ≡ true
        → turn.passes universe.now (has_bit archive.now.words) entry.now ≡ true }
{
    for atom in entry.alternatives() {
        if let Some(name) = universe.find(atom.name()) {
            if some_satisfies(universe, name, archive.word(name), entry) {
                return true;
            }
        }
    }
    false
}

/// Tells whether some variant of any name is in the archive and satisfies the entry.
#[tactic(auto, unfolding(farm_model::specs::Packages::has_bit))]
fn any_passes(universe: &Universe, archive: &PlainArchive, entry: &Entry) -> bool
    ensures { result ≡ turn.passes universe.now (has_bit archive.now.words) entry.now }
{
    for name in 0..universe.names() {
        if some_satisfies(universe, name, archive.word(name), entry) {
            return true;
        }
    }
    false
}

/// Tells whether some variant in the archive satisfies an alternative of an entry. The names that
/// the entry names are looked at first, since mostly one of them has such a variant.
pub fn passes(universe: &Universe, archive: &PlainArchive, entry: &Entry) -> bool
    ensures { result ≡ turn.passes universe.now (has_bit archive.now.words) entry.now }
{
    named_passes(universe, archive, entry) || any_passes(universe, archive, entry)
}
