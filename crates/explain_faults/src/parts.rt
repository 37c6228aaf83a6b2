//! What the items of a list of variants name, and the paragraphs of a text above one.

ghost use Rattle.std.specs.Prelude.{◌≡◌, ◌∷◌, ◌++◌, [], IfNone, IfSome, IfOk, OnOk, All, drop, filter_map, take};
ghost use Rattle.farm_model.specs.Common.{contains, same, IsKnown};
ghost use Rattle.farm_universe.specs.Items.{item_variant};
ghost use Rattle.explain_faults.specs.Found as spec;
ghost use Rattle.explain_faults.specs.Paragraphs.{viewed};

use crate::paragraph::Paragraph;
use crate::paragraphs::Entries;
use deb_relation::{Entry, Kind};
use deb_stanza::Paragraphs;
use farm_model::Variant;
use farm_universe::Universe;
use std::alloc::{AllocError, Global};
use std::marker::Model;

/// Paragraphs of a text, one behind the other: those that are left. A contract sees their list.
#[derive(Drop)]
pub struct Stretch<'a> {
    among: &'a Paragraphs,
    place: usize,
    end: usize,
}

impl<'a> Model for Stretch<'a> {
    ghost use Rattle.std.specs.Prelude.{◌≤◌, List, drop, length, take};
    ghost use Rattle.deb_stanza.specs.Stanza.{Paragraph};

    ghost Value = { List Paragraph };

    ghost view = { λ it. drop it.place (take it.end it.among.now) };

    ghost invariant = { λ it. it.end ≤ length it.among.now };
}

impl<'a> Stretch<'a> {
    /// The paragraphs above one, but for the first of the text.
    pub fn above(paragraph: Paragraph<'a>) -> Stretch<'a>
        ensures { result ≡ spec.above paragraph.entry.among.now paragraph.entry.place }
    {
        let Paragraph { among, place: end } = paragraph;
        let place = 1;
        Stretch { among, place, end }
    }

    /// The paragraphs up to one.
    pub fn up_to(paragraph: Paragraph<'a>) -> Stretch<'a>
        ensures { result ≡ spec.up_to paragraph.entry.among.now paragraph.entry.place }
    {
        let Paragraph { among, place } = paragraph;
        let _count = among.count();
        let (place, end) = (0, place + 1);
        Stretch { among, place, end }
    }

    /// Takes the next paragraph.
    pub fn next(&mut self) -> Option<Paragraph<'a>>
        ensures none { IfNone result (self.old ≡ []) }
        ensures paragraph { IfSome result (λ p. self.old ≡ viewed p ∷ self.new) }
    {
        let (among, place, end) = (self.among, self.place, self.end);
        if end <= place {
            return None;
        }
        *self = Stretch {
            among,
            place: place + 1,
            end,
        };
        Some(Paragraph { among, place })
    }
}

/// Puts the variants that items name behind others.
pub fn push_variants(
    variants: &mut Vec<Variant>,
    universe: &Universe,
    mut items: Entries<'_>,
) -> Result<(), AllocError>
    requires { All (IsKnown universe.now) variants.old.items }
    ensures variants { OnOk result (variants.new.items
        ≡ variants.old.items ++ filter_map (item_variant universe.now) items.entry) }
    ensures known { All (IsKnown universe.now) variants.new.items }
{
    while let Some(item) = items.next()? {
        if let Some(variant) = universe.item_variant(&item) {
            variants.push(variant)?;
        }
    }
    Ok(())
}

/// What the recipes above a paragraph give.
pub fn outputs_above(
    alloc: Global,
    universe: &Universe,
    paragraph: Paragraph<'_>,
) -> Result<Vec<Variant>, AllocError>
    ensures { IfOk result (λ given. given.items ≡ spec.outputs_of universe.now
        (spec.above paragraph.entry.among.now paragraph.entry.place)) }
{
    let mut given = Vec::new(alloc);
    let mut above = Stretch::above(paragraph);
    while let Some(recipe) = above.next() {
        if recipe.has(b"Recipe") {
            let items = Entries::of(alloc, Kind::Provide, recipe.value(b"Outputs"))?;
            push_variants(&mut given, universe, items)?;
        }
    }
    Ok(given)
}

#[tactic(auto, unfolding(farm_model::specs::Packages::same))]
pub fn is_same(variant: Variant, other: Variant) -> bool
    ensures { result ≡ same variant other }
{
    variant.name == other.name && variant.bit == other.bit
}

fn contains(variants: &[Variant], variant: Variant) -> bool
    ensures { result ≡ contains variants.now variant }
{
    variants.iter().any(|other| is_same(*other, variant))
}

/// Tells whether an item names a variant that is in the initial archive or among these.
pub fn is_taken(universe: &Universe, given: &[Variant], item: &Entry) -> bool
    ensures { result ≡ spec.is_taken universe.now given.now item.now }
{
    let _names = universe.names();
    match universe.item_variant(item) {
        Some(variant) => universe.is_initial(variant) || contains(given, variant),
        None => false,
    }
}
