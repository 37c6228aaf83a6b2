//! The bits of a word.

ghost use Rattle.std.specs.Prelude.{◌≡◌, ◌<◌, ◌≤◌};
ghost use Rattle.farm_model.specs.Packages.{names, variants, word_has};

use farm_universe::Universe;

/// Tells whether a word has a bit.
pub fn word_has(word: u64, bit: u32) -> bool
    requires { bit < 64 }
    ensures { result ≡ word_has word bit }
{
    (word >> bit) & 1 == 1
}

/// How many variants a name has, at most as many as a word has bits.
pub fn variant_count(universe: &Universe, name: u32) -> u32
    requires { name < names universe.now }
    ensures count { result ≡ variants universe.now name }
    ensures few { result ≤ 64 }
{
    let _names = universe.names();
    universe.variants(name)
}
