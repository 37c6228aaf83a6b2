//! Items, listed under names: a number of the name's text picks the list that they stand in.

ghost use Rattle.std.specs.Prelude.{◌≡◌, ◌<◌, ◌++◌, ◌∷◌, [], IfOk, OnOk, length};
ghost use Rattle.item_index.specs.Items.{list_of, listed, with_listed, IsListed, KeepsItems, IsListedEntry, IsListedField};

use crate::item::Item;
use deb_relation::{Entry, Relations};
use std::alloc::{AllocError, Global};
use std::marker::Model;

/// The items of one list.
#[derive(Drop)]
struct ItemList<O> {
    items: Vec<Item<O>>,
}

impl<O> Model for ItemList<O> {
    ghost use Rattle.std.specs.Prelude.{List};
    ghost use Rattle.item_index.specs.declared.item.Item.{Item};

    ghost Value = { List (Item O) };

    ghost view = { λ list. list.items.items };
}

impl<O: Copy + Drop> ItemList<O> {
    fn new(alloc: Global) -> ItemList<O>
        ensures { result ≡ [] }
    {
        ItemList {
            items: Vec::new(alloc),
        }
    }

    fn push(&mut self, item: Item<O>) -> Result<(), AllocError>
        ensures { OnOk result (self.new ≡ self.old ++ item ∷ []) }
    {
        self.items.push(item)?;
        Ok(())
    }

    fn items(&self) -> &[Item<O>]
        ensures { result.now ≡ self.now }
    {
        &self.items
    }
}

/// Items by name. Two names may share a list, so a list may have items of several names; who asks
/// tests each.
#[derive(Drop)]
pub struct ItemIndex<O> {
    lists: Vec<ItemList<O>>,
}

impl<O> Model for ItemIndex<O> {
    ghost use Rattle.std.specs.Prelude.{List, ◌<◌, length};
    ghost use Rattle.item_index.specs.declared.item.Item.{Item};

    ghost Value = { List (List (Item O)) };

    ghost view = { λ index. index.lists.items };

    ghost invariant = { λ index. 0 < length index.lists.items };
}

/// The list of a text among so many.
fn list_of(text: &[u8], count: usize) -> usize
    requires { 0 < count }
    ensures number { result ≡ list_of count text.now }
    ensures within { result < count }
{
    let mut number = 0u64;
    for byte in text {
        number = (number * 31 + *byte as u64) % 4_294_967_296;
    }
    (number % count as u64) as usize
}

impl<O: Copy + Drop> ItemIndex<O> {
    /// An index without items, of at least this many lists and of one.
    pub fn new(alloc: Global, count: usize) -> Result<ItemIndex<O>, AllocError> {
        let mut lists = Vec::new(alloc);
        lists.push(ItemList::new(alloc))?;
        for _ in 0..count {
            lists.push(ItemList::new(alloc))?;
        }
        Ok(ItemIndex { lists })
    }

    /// The items under a name, and perhaps others.
    pub fn listed(&self, text: &[u8]) -> &[Item<O>]
        ensures { result.now ≡ listed self.now text.now }
    {
        self.lists[list_of(text, self.lists.len())].items()
    }

    fn put(&mut self, text: &[u8], item: Item<O>) -> Result<(), AllocError>
        ensures { OnOk result (self.new ≡ with_listed self.old text.now item) }
    {
        let place = list_of(text, self.lists.len());
        self.lists[place].push(item)
    }

    /// Lists an item under a name.
    pub fn add(&mut self, text: &[u8], item: Item<O>) -> Result<(), AllocError>
        ensures kept { OnOk result (KeepsItems self.old self.new) }
        ensures there { OnOk result (IsListed self.new text.now item) }
    {
        let _lists = &self.lists;
        self.put(text, item)?;
        Ok(())
    }

    fn add_entry(&mut self, owner: O, number: usize, entry: &Entry) -> Result<(), AllocError>
        ensures kept { OnOk result (KeepsItems self.old self.new) }
        ensures names { OnOk result (IsListedEntry self.new owner number entry.now) }
    {
        let atoms = entry.alternatives();
        for alternative in 0..atoms.len() {
            let atom = &atoms[alternative];
            let item = Item {
                owner,
                entry: number,
                alternative,
            };
            self.add(atom.name(), item)?;
        }
        Ok(())
    }

    /// Lists each alternative of a field of an owner under its name.
    pub fn add_field(&mut self, owner: O, field: &Relations) -> Result<(), AllocError>
        ensures kept { OnOk result (KeepsItems self.old self.new) }
        ensures names { OnOk result (IsListedField self.new owner field.now) }
    {
        let entries = field.entries();
        for number in 0..entries.len() {
            self.add_entry(owner, number, &entries[number])?;
        }
        Ok(())
    }
}
