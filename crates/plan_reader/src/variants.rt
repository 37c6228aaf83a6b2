//! Names and variants. A number past the last has no name and no version.

ghost use Rattle.std.specs.Prelude.{◌≡◌, ◌++◌, OnOk};
ghost use Rattle.plan_reader.specs.Listing.{name_of_number};
ghost use Rattle.plan_reader.specs.Variants.{version_of, variant_text};

use deb_text::push_pieces;
use farm_universe::{Universe, Variant};
use std::alloc::AllocError;

/// A name of a package.
#[tactic(auto, unfolding(farm_model::specs::Packages::names))]
pub fn name_of(universe: &Universe, name: u32) -> &[u8]
    ensures { result.now ≡ name_of_number universe.now name }
{
    if name < universe.names() {
        universe.name_text(name)
    } else {
        b""
    }
}

/// The version of a variant, as the packages text spells it.
pub fn version_of(universe: &Universe, variant: Variant) -> &[u8]
    ensures { result.now ≡ version_of universe.now variant }
{
    if variant.name < universe.names() && variant.bit < universe.variants(variant.name) {
        universe.version(variant).text()
    } else {
        b""
    }
}

/// Appends `NAME (= VERSION)` to a text.
pub fn push_variant(
    text: &mut Vec<u8>,
    universe: &Universe,
    variant: Variant,
) -> Result<(), AllocError>
    ensures { OnOk result
        (text.new.items ≡ text.old.items ++ variant_text universe.now variant) }
{
    let name = name_of(universe, variant.name);
    push_pieces(text, &[name, b" (= ", version_of(universe, variant), b")"])
}
