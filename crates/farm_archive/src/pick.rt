//! Which variant an unpack takes.

ghost use Rattle.std.specs.Prelude.{◌≡◌, ◌&&◌, ◌<◌};
ghost use Rattle.farm_model.specs.Common.{highest_below, variant, variants, names, is_wanted, word_has, IsKnown};

use crate::word::{variant_count, word_has};
use deb_relation::{Op, view_relation};
use deb_version::Version;
use farm_universe::{Universe, Variant};

/// Tells whether a variant is in this set and in the relation of an unpack.
fn is_there(
    universe: &Universe,
    word: u64,
    variant: Variant,
    relation: &Option<(Op, Version)>,
) -> bool
    requires known { IsKnown universe.now variant }
    requires within { variant.bit < 64 }
    ensures { result
        ≡ (word_has word variant.bit && is_wanted universe.now relation.now variant) }
{
    word_has(word, variant.bit) && universe.is_wanted(variant, view_relation(relation))
}

/// The highest variant of a name that is in its word of the archive and in the relation of an
/// unpack.
pub fn newest(
    universe: &Universe,
    word: u64,
    name: u32,
    relation: &Option<(Op, Version)>,
) -> Option<u32>
    requires { name < names universe.now }
    ensures { result ≡ highest_below (variants universe.now name)
        (λ b. word_has word b && is_wanted universe.now relation.now (variant name b)) }
{
    let mut bit = variant_count(universe, name);
    while bit > 0 {
        bit -= 1;
        if is_there(universe, word, Variant { name, bit }, relation) {
            return Some(bit);
        }
    }
    None
}
