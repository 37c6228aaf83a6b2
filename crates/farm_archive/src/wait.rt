//! Whether a wait passes.

ghost use Rattle.std.specs.Prelude.{◌≡◌, ◌&&◌, ◌<◌};
ghost use Rattle.farm_model.specs.Common.{some_below, variant, variants, names, word_has, satisfies_entry, IsKnown};

use crate::word::{variant_count, word_has};
use deb_relation::Entry;
use farm_universe::relations::satisfies_entry;
use farm_universe::{Universe, Variant};

/// Tells whether a variant is in this set and satisfies an entry.
fn has_satisfying(universe: &Universe, word: u64, variant: Variant, entry: &Entry) -> bool
    requires known { IsKnown universe.now variant }
    requires within { variant.bit < 64 }
    ensures { result
        ≡ (word_has word variant.bit && satisfies_entry universe.now entry.now variant) }
{
    word_has(word, variant.bit) && satisfies_entry(universe, entry, variant)
}

/// Tells whether some variant of a name is in its word of the archive and satisfies an entry.
pub fn some_satisfies(universe: &Universe, name: u32, word: u64, entry: &Entry) -> bool
    requires { name < names universe.now }
    ensures { result ≡ some_below (variants universe.now name)
        (λ b. word_has word b && satisfies_entry universe.now entry.now (variant name b)) }
{
    for bit in 0..variant_count(universe, name) {
        if has_satisfying(universe, word, Variant { name, bit }, entry) {
            return true;
        }
    }
    false
}
