//! Whether all variants of some name that words have satisfy an alternative.

ghost use Rattle.std.specs.Prelude.{◌≡◌, ◌↔◌, ℕ, IsTrue, true, false};
ghost use Rattle.deb_relation.specs.Satisfaction.{is_its_own};
ghost use Rattle.farm_model.specs.Packages.{facts};
ghost use Rattle.farm_model.specs.declared.types.Variant.{Variant};
ghost use Rattle.item_index.specs.declared.item.Item.{Item};
ghost use Rattle.item_index.specs.Items.{IsIn};
ghost use Rattle.sat_rows.specs.Index.{IsProviding};
ghost use Rattle.sat_rows.specs.Inside.{IsInside, HasInside};
ghost use Rattle.sat_rows.specs.Rows.{variant_passes};

use crate::word::{meets, word_for, word_of};
use deb_relation::Atom;
use farm_universe::relations::SatisfiesAtom;
use farm_universe::{Universe, Variant};
use item_index::{Item, ItemIndex};

/// Tells whether the words have variants of a name, and all of them satisfy an alternative.
fn is_inside(universe: &Universe, atom: &Atom, words: &[u64], name: u32) -> bool
    ensures { IsTrue result ↔ IsInside universe.now atom.now words.now name }
{
    let word = word_of(words, name);
    // most names have none
    word != 0 && meets(word, word_for(universe, name, &SatisfiesAtom { atom }))
}

/// Tells whether that holds of the name that the alternative has.
fn own_inside(universe: &Universe, atom: &Atom, words: &[u64]) -> bool
    ensures found { result ≡ true → HasInside universe.now atom.now words.now }
    ensures none { result ≡ false → (n b : ℕ)
        → variant_passes universe.now (λ v. is_its_own (facts universe.now v) atom.now) n b ≡ true
        → ¬ IsInside universe.now atom.now words.now n }
{
    let _names = universe.names();
    match universe.find(atom.name()) {
        Some(name) => is_inside(universe, atom, words, name),
        None => false,
    }
}

/// Tells whether that holds of a name whose variants have an item.
fn owner_inside(universe: &Universe, atom: &Atom, words: &[u64], items: &[Item<Variant>]) -> bool
    ensures found { result ≡ true → HasInside universe.now atom.now words.now }
    ensures none { result ≡ false → (at : Item Variant) → IsIn items.now at
        → ¬ IsInside universe.now atom.now words.now at.owner.name }
{
    for item in items {
        if is_inside(universe, atom, words, item.owner.name) {
            return true;
        }
    }
    false
}

/// Tells whether some name has variants in the words, and all of them satisfy an alternative. The
/// call takes no memory.
pub fn has_name_inside(
    universe: &Universe,
    providers: &ItemIndex<Variant>,
    atom: &Atom,
    words: &[u64],
) -> bool
    requires { IsProviding universe.now providers.now }
    ensures { IsTrue result ↔ HasInside universe.now atom.now words.now }
{
    own_inside(universe, atom, words)
        || owner_inside(universe, atom, words, providers.listed(atom.name()))
}
