//! Sets of variants of one name, as words.

ghost use Rattle.std.specs.Prelude.{◌≡◌, ◌<◌, ◌≤◌, ◌^◌, ◌&&◌};
ghost use Rattle.clause_kernel.specs.Rows.{word_has};
ghost use Rattle.farm_universe.specs.Kept.{IsKept};
ghost use Rattle.farm_model.specs.Packages.{variant, variants};
ghost use Rattle.plan_model.specs.May as may;

use farm_universe::relations::VariantTest;
use farm_universe::{Universe, Variant};

/// How many variants a name has: none where the universe does not have the name.
#[tactic(auto, using(farm_universe::proofs::PlaceLaws::no_variants))]
pub fn variant_count(universe: &Universe, name: u32) -> u32
    ensures number { result ≡ variants universe.now name }
    ensures few { result ≤ 64 }
    ensures kept { IsKept universe.now }
{
    if name < universe.names() {
        universe.variants(name)
    } else {
        0
    }
}

/// Tells whether the variant of a bit is in a set.
pub fn has_bit(set: u64, bit: u32) -> bool
    requires { bit < 64 }
    ensures { result ≡ word_has set bit }
{
    (set >> bit) & 1 == 1
}

fn has_passing<T: VariantTest>(universe: &Universe, name: u32, set: u64, bit: u32, test: &T) -> bool
    requires fits { T.fits universe.now test.now }
    requires known { bit < variants universe.now name }
    requires within { bit < 64 }
    ensures { result ≡ (word_has set bit && T.test universe.now test.now (variant name bit)) }
{
    has_bit(set, bit) && test.passes(universe, Variant { name, bit })
}

/// Tells whether some variant of a set passes.
pub fn some_of<T: VariantTest>(universe: &Universe, name: u32, set: u64, test: &T) -> bool
    requires { T.fits universe.now test.now }
    ensures { result ≡ may.some_of universe.now name (word_has set)
        (λ b. T.test universe.now test.now (variant name b)) }
{
    if set == 0 {
        // most names hold nothing
        return false;
    }
    let count = variant_count(universe, name);
    for bit in 0..count {
        if has_passing(universe, name, set, bit, test) {
            return true;
        }
    }
    false
}
