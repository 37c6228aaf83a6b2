//! The variants of the items that lists are printed with, found by the items' texts.

ghost use Rattle.std.specs.Prelude.{◌≡◌, ◌<◌, IfOk, IfSome, OnOk};
ghost use Rattle.std.specs.Map.{lookup};
ghost use Rattle.std.specs.Str.{bytes_eq};
ghost use Rattle.cert_text.specs.Items.{said_variant, AreSaid, IsSaid};
ghost use Rattle.cert_text.specs.Rows.{IsOfUniverse};
ghost use Rattle.farm_model.specs.Common.{names, Universe as Farm};

use deb_relation::{Entry, Kind};
use deb_text::MEMORY;
use farm_model::Variant;
use farm_universe::Universe;
use indexmap::IndexMap;
use std::alloc::{AllocError, Global};

/// A universe, and the variants of items by their texts.
#[derive(Clone, Copy)]
pub struct Spelled<'a> {
    pub universe: &'a Universe,
    pub variants: &'a IndexMap<Vec<u8>, Variant>,
    ghost said: { AreSaid universe.now variants.now.entries },
}

/// The variant that an item says.
#[tactic(auto, unfolding(crate::specs::Items::said_variant))]
fn read_item(alloc: Global, universe: &Universe, text: &[u8]) -> Result<Option<Variant>, AllocError>
    ensures said { IfOk result (λ variant. variant ≡ said_variant universe.now text.now) }
    ensures known { IfOk result (λ variant. IfSome variant (IsOfUniverse universe.now)) }
{
    match Entry::parse(alloc, text, Kind::Provide) {
        Ok(item) => Ok(universe.item_variant(&item)),
        Err(error) => {
            if error.code == MEMORY {
                return Err(AllocError);
            }
            Ok(None)
        }
    }
}

/// The variant that is noted beside a text.
fn noted(variants: &IndexMap<Vec<u8>, Variant>, text: &[u8]) -> Option<Variant>
    ensures { result ≡ lookup (λ k. bytes_eq text.now k.items) variants.now.entries }
{
    variants.get(text).copied()
}

/// The variant that an item says. One that is written as it would be printed is looked up.
pub fn variant_said(
    alloc: Global,
    spelled: Spelled<'_>,
    text: &[u8],
) -> Result<Option<Variant>, AllocError>
    ensures said { IfOk result (λ variant. variant
        ≡ said_variant spelled.entry.universe.now text.now) }
    ensures known { IfOk result (λ variant. IfSome variant
        (IsOfUniverse spelled.entry.universe.now)) }
{
    match noted(spelled.variants, text) {
        Some(variant) => Ok(Some(variant)),
        None => read_item(alloc, spelled.universe, text),
    }
}

/// The item of a variant behind a comma, as it is printed.
fn item_text(alloc: Global, universe: &Universe, variant: Variant) -> Result<Vec<u8>, AllocError>
    requires { IsOfUniverse universe.now variant }
{
    let mut text = Vec::new(alloc);
    text.push(b' ')?;
    text.extend_from_slice(universe.name_text(variant.name))?;
    text.extend_from_slice(b" (= ")?;
    text.extend_from_slice(universe.version(variant).text())?;
    text.push(b')')?;
    Ok(text)
}

/// Notes the variant of a text, unless one is noted.
fn put(
    variants: &mut IndexMap<Vec<u8>, Variant>,
    text: Vec<u8>,
    variant: Variant,
) -> Result<(), AllocError>
    ensures { OnOk result ((u : Farm) → AreSaid u variants.old.entries
        → IsSaid u text.items variant → AreSaid u variants.new.entries) }
{
    if variants.contains_key(text.as_slice()) {
        return Ok(());
    }
    variants.insert(text, variant)?;
    Ok(())
}

/// Notes what the item of a variant says.
fn note(
    alloc: Global,
    universe: &Universe,
    variants: &mut IndexMap<Vec<u8>, Variant>,
    variant: Variant,
) -> Result<(), AllocError>
    requires known { IsOfUniverse universe.now variant }
    requires said { AreSaid universe.now variants.old.entries }
    ensures { OnOk result (AreSaid universe.now variants.new.entries) }
{
    let text = item_text(alloc, universe, variant)?;
    match read_item(alloc, universe, &text)? {
        Some(said) => put(variants, text, said),
        None => Ok(()),
    }
}

/// Notes the items of the variants of a name.
fn note_name(
    alloc: Global,
    universe: &Universe,
    variants: &mut IndexMap<Vec<u8>, Variant>,
    name: u32,
) -> Result<(), AllocError>
    requires known { name < names universe.now }
    requires said { AreSaid universe.now variants.old.entries }
    ensures { OnOk result (AreSaid universe.now variants.new.entries) }
{
    for bit in 0..universe.variants(name) {
        note(alloc, universe, variants, Variant { name, bit })?;
    }
    Ok(())
}

/// The variants of a universe by the texts of their items.
pub fn spelled_variants(
    alloc: Global,
    universe: &Universe,
) -> Result<IndexMap<Vec<u8>, Variant>, AllocError>
    ensures { IfOk result (λ variants. AreSaid universe.now variants.entries) }
{
    let mut variants = IndexMap::new(alloc);
    for name in 0..universe.names() {
        note_name(alloc, universe, &mut variants, name)?;
    }
    Ok(variants)
}
