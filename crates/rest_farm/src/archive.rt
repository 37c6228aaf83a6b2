//! The archive of a farm that goes on, as a list.

ghost use Rattle.std.specs.Prelude.{◌≡◌, ◌++◌, ◌∷◌, [], IfOk, OnOk};
ghost use Rattle.leg_laws.specs.Named.{Item, is_listed};
ghost use Rattle.rest_farm.specs.Archive.{archive_items, brought_items, kept_items};
ghost use Rattle.rest_farm.specs.Odds.{stays_in};

use crate::continuation::Ahead;
use crate::item::Item;
use crate::items::Items;
use std::alloc::{AllocError, Global};

/// Puts an item behind a list, unless it is among others.
fn push_unless(list: &mut Vec<Item>, out: &Items, item: &Item) -> Result<(), AllocError>
    ensures { OnOk result
        (list.new.items ≡ list.old.items ++ kept_items out.now (item.now ∷ [])) }
{
    if out.has_item(item) {
        return Ok(());
    }
    let copy = item.clone()?;
    list.push(copy)?;
    Ok(())
}

/// Puts those of some items behind a list that are not among others.
fn push_kept(list: &mut Vec<Item>, out: &Items, items: &[Item]) -> Result<(), AllocError>
    ensures { OnOk result (list.new.items ≡ list.old.items ++ kept_items out.now items.now) }
{
    for item in items {
        push_unless(list, out, item)?;
    }
    Ok(())
}

/// Those of some items that are not among others.
fn kept_items(alloc: Global, out: &Items, items: &[Item]) -> Result<Vec<Item>, AllocError>
    ensures { IfOk result (λ list. list.items ≡ kept_items out.now items.now) }
{
    let mut list = Vec::new(alloc);
    push_kept(&mut list, out, items)?;
    Ok(list)
}

/// What came into the archive by hand: what the archive of a given farm has, and the run has not left
/// there, but for what is withdrawn. In the order of the given list.
pub fn brought_items(
    alloc: Global,
    left: &Items,
    gone: &Items,
    given: &[Item],
) -> Result<Vec<Item>, AllocError>
    ensures { IfOk result (λ list. list.items ≡ brought_items left.now gone.now given.now) }
{
    let others = kept_items(alloc, left, given)?;
    kept_items(alloc, gone, &others)
}

/// The archive of the farm that goes on: what the run has left, then what came by hand, each in its
/// order, but for what is withdrawn.
pub fn archive_items(alloc: Global, of: Ahead<'_>) -> Result<Vec<Item>, AllocError>
    ensures list { IfOk result (λ list. list.items
        ≡ archive_items of.entry.left.now of.entry.brought.now of.entry.gone.now) }
    ensures stays { IfOk result (λ list. (item : Item) → is_listed list.items item
        ≡ stays_in of.entry.left.now of.entry.brought.now of.entry.gone.now item) }
{
    let mut list = Vec::new(alloc);
    push_kept(&mut list, of.gone, of.left.list())?;
    push_kept(&mut list, of.gone, of.brought.list())?;
    Ok(list)
}
