//! Names that are asked for.

ghost use Rattle.std.specs.Prelude.{◌≡◌, true, false, IfOk};
ghost use Rattle.std.specs.List.{list_any};
ghost use Rattle.leg_laws.specs.Left.{has_name};
ghost use Rattle.rest_farm.specs.Items.{AreKeyed, NoneAt, is_at, is_name, name_key};

use item_index::{Item as Place, ItemIndex};
use std::alloc::{AllocError, Global};
use std::marker::Model;

/// A name. A contract sees its bytes.
#[derive(Drop)]
pub struct Name {
    bytes: Vec<u8>,
}

impl Model for Name {
    ghost use Rattle.std.specs.Prelude.{ℕ, List};

    ghost Value = { List ℕ };

    ghost view = { λ name. name.bytes.items };
}

impl Name {
    /// Copies a name.
    pub fn of(alloc: Global, bytes: &[u8]) -> Result<Name, AllocError>
        ensures { IfOk result (λ name. name ≡ bytes.now) }
    {
        Ok(Name {
            bytes: Vec::from_slice(alloc, bytes)?,
        })
    }

    /// The bytes of the name.
    pub fn bytes(&self) -> &[u8]
        ensures { result.now ≡ self.now }
    {
        &self.bytes
    }
}

fn is_name(name: &Name, bytes: &[u8]) -> bool
    ensures { result ≡ is_name bytes.now name.now }
{
    name.bytes() == bytes
}

/// Lists names, each with its place.
fn index_of(alloc: Global, list: &[Name]) -> Result<ItemIndex<usize>, AllocError>
    ensures { IfOk result (AreKeyed name_key list.now) }
{
    let mut index = ItemIndex::new(alloc, list.len())?;
    for number in 0..list.len() {
        let place = Place {
            owner: number,
            entry: 0,
            alternative: 0,
        };
        index.add(list[number].bytes(), place)?;
    }
    Ok(index)
}

/// Tells whether the name at a place of a list is this one.
fn is_at(list: &[Name], place: usize, bytes: &[u8]) -> bool
    ensures { result ≡ is_at (is_name bytes.now) list.now place }
{
    match list.get(place) {
        Some(name) => is_name(name, bytes),
        None => false,
    }
}

/// The same: what that says of the list.
fn has_at(list: &[Name], place: usize, bytes: &[u8]) -> bool
    ensures found { result ≡ true → list_any (is_name bytes.now) list.now ≡ true }
    ensures none { result ≡ false → is_at (is_name bytes.now) list.now place ≡ false }
{
    is_at(list, place, bytes)
}

/// Tells whether a name at one of these places is.
fn some_has(list: &[Name], places: &[Place<usize>], bytes: &[u8]) -> bool
    ensures found { result ≡ true → list_any (is_name bytes.now) list.now ≡ true }
    ensures none { result ≡ false → NoneAt (is_name bytes.now) list.now places.now }
{
    for number in 0..places.len() {
        if has_at(list, places[number].owner, bytes) {
            return true;
        }
    }
    false
}

/// Names in an order. A contract sees their list.
#[derive(Drop)]
pub struct Names {
    list: Vec<Name>,
    index: ItemIndex<usize>,
}

impl Model for Names {
    ghost use Rattle.std.specs.Prelude.{ℕ, List};
    ghost use Rattle.rest_farm.specs.Items.{AreKeyed, name_key};

    ghost Value = { List (List ℕ) };

    ghost view = { λ names. names.list.items };

    ghost invariant = { λ names. AreKeyed name_key names.list.items names.index };
}

impl Names {
    /// Takes a list of names.
    pub fn of(alloc: Global, list: Vec<Name>) -> Result<Names, AllocError>
        ensures { IfOk result (λ names. names ≡ list.items) }
    {
        let index = index_of(alloc, &list)?;
        Ok(Names { list, index })
    }

    /// The names in their order.
    pub fn list(&self) -> &[Name]
        ensures { result.now ≡ self.now }
    {
        &self.list
    }

    /// Tells whether a name is among them.
    pub fn has(&self, bytes: &[u8]) -> bool
        ensures { result ≡ has_name self.now bytes.now }
    {
        some_has(self.list(), self.index.listed(bytes), bytes)
    }
}
