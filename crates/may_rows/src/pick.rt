//! Which variants an unpack may take.

ghost use Rattle.std.specs.Prelude.{◌≡◌, ◌≢◌, ◌<◌, ◌&&◌, ℕ, Bool, true, nat_le, IfSome};
ghost use Rattle.clause_kernel.specs.Rows.{word_has};
ghost use Rattle.farm_model.specs.Packages.{variants, is_wanted};
ghost use Rattle.farm_model.specs.declared.types.Variant.{Variant};
ghost use Rattle.sat_rows.specs.Rows.{IsWordFor};
ghost use Rattle.may_rows.specs.Picks.{AreOfArchive, IsPick};

use bit_rows::newest;
use deb_relation::{Op, view_relation};
use deb_version::Version;
use farm_universe::Universe;
use sat_rows::mask;

/// The bits of a word from this one up.
fn from_bit(word: u64, bit: u32) -> u64
    requires { bit < 64 }
    ensures { (b : ℕ) → word_has result b ≡ (word_has word b && nat_le bit b) }
{
    let below = (1_u64 << bit) - 1;
    word ^ (word & below)
}

/// The variants of a name that are in the relation of an unpack.
fn wanted_word(universe: &Universe, name: u32, relation: &Option<(Op, Version)>) -> u64
    ensures { IsWordFor universe.now (is_wanted universe.now relation.now) name result }
{
    mask(universe, name, view_relation(relation))
}

/// The variants of a name that an unpack may take, by the words of what is surely in the archive
/// and of what may be: those that are wanted, from the highest known one up. None where no known
/// variant is wanted.
pub fn pick(
    universe: &Universe,
    name: u32,
    relation: &Option<(Op, Version)>,
    known: u64,
    there: u64,
) -> Option<u64>
    requires known_there { (b : ℕ) → word_has known b ≡ true → word_has there b ≡ true }
    ensures some { IfSome result (λ set. set ≢ 0) }
    ensures of_name { IfSome result
        (λ set. (b : ℕ) → word_has set b ≡ true → b < variants universe.now name) }
    ensures pick { (in_it may_be : Variant → Bool) → AreOfArchive universe.now in_it may_be
        → IsWordFor universe.now in_it name known → IsWordFor universe.now may_be name there
        → IsPick universe.now in_it may_be name relation.now result }
{
    let wanted = wanted_word(universe, name, relation);
    match newest(known, wanted) {
        Some(highest) => Some(from_bit(there & wanted, highest)),
        None => None,
    }
}
