//! Lists of items that are asked by name.

ghost use Rattle.std.specs.Prelude.{◌≡◌, ◌<◌, true, false, IfOk, IfSome};
ghost use Rattle.farm_model.specs.Common.{names, IsKnown};
ghost use Rattle.leg_laws.specs.Named.{is_listed, item_of};
ghost use Rattle.rest_farm.specs.Items.{AreKeyed, NoneAt, is_at, is_item, item_key, item_named};

use crate::item::Item;
use deb_version::Version;
use farm_universe::{Universe, Variant};
use item_index::{Item as Place, ItemIndex};
use std::alloc::{AllocError, Global};
use std::marker::Model;

/// Lists items under their names, each with its place.
fn index_of(alloc: Global, list: &[Item]) -> Result<ItemIndex<usize>, AllocError>
    ensures { IfOk result (AreKeyed item_key list.now) }
{
    let mut index = ItemIndex::new(alloc, list.len())?;
    for number in 0..list.len() {
        let place = Place {
            owner: number,
            entry: 0,
            alternative: 0,
        };
        index.add(list[number].name(), place)?;
    }
    Ok(index)
}

/// Tells whether the item at a place of a list is of this name and version.
fn is_at(list: &[Item], place: usize, name: &[u8], version: &Version) -> bool
    ensures { result
        ≡ is_at (is_item (item_named name.now version.now)) list.now place }
{
    match list.get(place) {
        Some(item) => item.is_of(name, version),
        None => false,
    }
}

/// The same: what that says of the list.
fn has_at(list: &[Item], place: usize, name: &[u8], version: &Version) -> bool
    ensures found { result ≡ true
        → is_listed list.now (item_named name.now version.now) ≡ true }
    ensures none { result ≡ false
        → is_at (is_item (item_named name.now version.now)) list.now place ≡ false }
{
    is_at(list, place, name, version)
}

/// Tells whether an item at one of these places is.
fn some_has(list: &[Item], places: &[Place<usize>], name: &[u8], version: &Version) -> bool
    ensures found { result ≡ true
        → is_listed list.now (item_named name.now version.now) ≡ true }
    ensures none { result ≡ false
        → NoneAt (is_item (item_named name.now version.now)) list.now places.now }
{
    for number in 0..places.len() {
        if has_at(list, places[number].owner, name, version) {
            return true;
        }
    }
    false
}

/// Items in an order. A contract sees their list.
#[derive(Drop)]
pub struct Items {
    list: Vec<Item>,
    index: ItemIndex<usize>,
}

impl Model for Items {
    ghost use Rattle.std.specs.Prelude.{List};
    ghost use Rattle.leg_laws.specs.Named as named;
    ghost use Rattle.rest_farm.specs.Items.{AreKeyed, item_key};

    ghost Value = { List named.Item };

    ghost view = { λ items. items.list.items };

    ghost invariant = { λ items. AreKeyed item_key items.list.items items.index };
}

impl Items {
    /// Takes a list of items.
    pub fn of(alloc: Global, list: Vec<Item>) -> Result<Items, AllocError>
        ensures { IfOk result (λ items. items ≡ list.items) }
    {
        let index = index_of(alloc, &list)?;
        Ok(Items { list, index })
    }

    /// The items in their order.
    pub fn list(&self) -> &[Item]
        ensures { result.now ≡ self.now }
    {
        &self.list
    }

    /// Tells whether an item of this name and version is among them.
    pub fn has(&self, name: &[u8], version: &Version) -> bool
        ensures { result ≡ is_listed self.now (item_named name.now version.now) }
    {
        some_has(self.list(), self.index.listed(name), name, version)
    }

    /// Tells whether an item is among them.
    pub fn has_item(&self, item: &Item) -> bool
        ensures { result ≡ is_listed self.now item.now }
    {
        self.has(item.name(), item.version())
    }

    /// Tells whether a variant of a universe is among them.
    pub fn has_variant(&self, universe: &Universe, variant: Variant) -> bool
        requires name { variant.name < names universe.now }
        requires known { IsKnown universe.now variant }
        ensures { result ≡ is_listed self.now (item_of universe.now variant) }
    {
        self.has(universe.name_text(variant.name), universe.version(variant))
    }

    /// Tells whether the item at a place is equal to this one.
    fn is_same(&self, place: usize, item: &Item) -> bool
        ensures { result ≡ is_at (is_item item.now) self.now place }
    {
        match self.list().get(place) {
            Some(other) => other.is_same(item),
            None => false,
        }
    }

    /// The place of the first item that is equal to this one.
    pub fn first(&self, item: &Item) -> Option<usize>
        ensures { IfSome result (λ place. is_at (is_item item.now) self.now place ≡ true) }
    {
        let places = self.index.listed(item.name());
        for number in 0..places.len() {
            let place = places[number].owner;
            if self.is_same(place, item) {
                return Some(place);
            }
        }
        None
    }
}
