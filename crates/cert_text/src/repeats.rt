//! The items of a line beside those of the line before it, most of which come again.

ghost use Rattle.std.specs.Prelude.{◌≡◌, ◌++◌, ◌∷◌, ◌≤◌, [], length, not, Some, IfOk, IfSome, OnOk};
ghost use Rattle.std.specs.List.{Contains, prefix_len};
ghost use Rattle.cert_text.specs.Items.{said_variant, EachIsSaid};
ghost use Rattle.cert_text.specs.Rows.{IsOfUniverse, is_behind};
ghost use Rattle.farm_model.specs.Universe.{Universe as Farm};

use crate::list::is_behind;
use crate::same::is_same;
use crate::spelled::{Spelled, variant_said};
use farm_model::Variant;
use std::alloc::{AllocError, Global};
use std::marker::Model;
use std::mem;

/// An item of a list, and the variant that it says.
#[derive(Drop)]
struct Item<'t> {
    text: &'t [u8],
    variant: Variant,
}

impl<'t> Model for Item<'t> {
    ghost use Rattle.cert_text.specs.Items as spec;

    ghost Value = { spec.SaidText };

    ghost view = { λ item. record { text = item.text.now; variant = item.variant } };
}

/// The items of a line so far, and of the line before it those from the next one on. A contract
/// sees which items are kept; which of them is the next one is no part of it.
#[derive(Drop)]
pub struct Repeats<'t> {
    earlier: Vec<Item<'t>>,
    later: Vec<Item<'t>>,
    next: usize,
}

impl<'t> Model for Repeats<'t> {
    ghost use Rattle.std.specs.Prelude.{◌++◌, List};
    ghost use Rattle.cert_text.specs.Items as spec;

    ghost Value = { List spec.SaidText };

    ghost view = { λ repeats. repeats.earlier.items ++ repeats.later.items };
}

impl<'t> Repeats<'t> {
    /// No line so far.
    pub fn new(alloc: Global) -> Repeats<'t>
        ensures { result ≡ [] }
    {
        Repeats {
            earlier: Vec::new(alloc),
            later: Vec::new(alloc),
            next: 0,
        }
    }

    /// Begins a line: the items so far are those of the line before it.
    pub fn begin_line(&mut self)
        ensures { (u : Farm) → EachIsSaid u self.old → EachIsSaid u self.new }
    {
        mem::swap(&mut self.earlier, &mut self.later);
        self.later.clear();
        self.next = 0;
    }

    /// The variant of an item, if it is the next one of the line before.
    fn find(&self, text: &[u8]) -> Option<Variant>
        ensures { IfSome result (λ variant. Contains self.now
            (record { text = text.now; variant = variant })) }
    {
        if self.next >= self.earlier.len() {
            return None;
        }
        let item = &self.earlier[self.next];
        if !is_same(text, item.text) {
            return None;
        }
        Some(item.variant)
    }

    /// Keeps what an item says, and goes to the next one of the line before that comes behind it.
    fn keep(&mut self, text: &'t [u8], variant: Variant) -> Result<(), AllocError>
        ensures { OnOk result (self.new ≡ self.old
            ++ (record { text = text.now; variant = variant }) ∷ []) }
    {
        self.later.push(Item { text, variant })?;
        let from = self.next.min(self.earlier.len());
        self.next = from + count_passed(&self.earlier[from..], variant);
        Ok(())
    }
}

/// Counts the first items that do not come behind a variant.
fn count_passed(items: &[Item<'_>], variant: Variant) -> usize
    ensures value { result
        ≡ prefix_len (λ item. not (is_behind (Some variant) item.variant)) items.now }
    ensures bound { result ≤ length items.now }
{
    let passed = |item: &&Item<'_>| !is_behind(Some(variant), item.variant);
    items.iter().take_while(passed).count()
}

/// The variant that an item says, if it is known of the line before or looked up.
fn variant_here(
    alloc: Global,
    spelled: Spelled<'_>,
    repeats: &Repeats<'_>,
    text: &[u8],
) -> Result<Option<Variant>, AllocError>
    requires { EachIsSaid spelled.universe.now repeats.now }
    ensures said { IfOk result (λ variant. variant
        ≡ said_variant spelled.entry.universe.now text.now) }
    ensures known { IfOk result (λ variant. IfSome variant
        (IsOfUniverse spelled.entry.universe.now)) }
{
    match repeats.find(text) {
        Some(variant) => Ok(Some(variant)),
        None => variant_said(alloc, spelled, text),
    }
}

/// The variant that an item says. One that is that of the line before is not looked up.
pub fn variant_repeated<'t>(
    alloc: Global,
    spelled: Spelled<'_>,
    repeats: &mut Repeats<'t>,
    text: &'t [u8],
) -> Result<Option<Variant>, AllocError>
    requires { EachIsSaid spelled.universe.now repeats.old }
    ensures said { IfOk result (λ variant. variant
        ≡ said_variant spelled.entry.universe.now text.now) }
    ensures known { IfOk result (λ variant. IfSome variant
        (IsOfUniverse spelled.entry.universe.now)) }
    ensures kept { OnOk result (EachIsSaid spelled.entry.universe.now repeats.new) }
{
    let Some(variant) = variant_here(alloc, spelled, repeats, text)? else {
        return Ok(None);
    };
    repeats.keep(text, variant)?;
    Ok(Some(variant))
}
