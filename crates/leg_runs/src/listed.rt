//! The items of a list in a text.

ghost use Rattle.std.specs.Prelude.{◌≡◌, ◌++◌, IfOk, OnOk};
ghost use Rattle.std.specs.List.{flat_map};
ghost use Rattle.std.specs.Option.{option_map};
ghost use Rattle.leg_runs.specs.Listed.{entry_items, listed_items};

use deb_relation::{Entry, Kind, Relations};
use deb_text::MEMORY;
use farm_universe::pinned;
use rest_farm::Item;
use std::alloc::{AllocError, Global};

/// Puts the item of an entry behind others, if it has one.
fn push_pinned(alloc: Global, items: &mut Vec<Item>, entry: &Entry) -> Result<(), AllocError>
    ensures { OnOk result (items.new.items ≡ items.old.items ++ entry_items entry.now) }
{
    if let Some((name, version)) = pinned(entry) {
        let name = Vec::from_slice(alloc, name)?;
        items.push(Item::new(name, version.to_version(alloc)?))?;
    }
    Ok(())
}

fn pinned_items(alloc: Global, entries: &[Entry]) -> Result<Vec<Item>, AllocError>
    ensures { IfOk result (λ items. items.items ≡ flat_map entry_items entries.now) }
{
    let mut items = Vec::new(alloc);
    for entry in entries {
        push_pinned(alloc, &mut items, entry)?;
    }
    Ok(items)
}

/// The items of a list; none of what is no list, which is left to the reader of the texts.
pub fn listed(alloc: Global, value: Option<&[u8]>) -> Result<Vec<Item>, AllocError>
    ensures { IfOk result (λ items. items.items
        ≡ listed_items (option_map (λ text. text.now) value.entry)) }
{
    let Some(text) = value else {
        return Ok(Vec::new(alloc));
    };
    match Relations::parse(alloc, text, Kind::Provide) {
        Ok(relations) => pinned_items(alloc, relations.entries()),
        Err(error) if error.code == MEMORY => Err(AllocError),
        Err(_) => Ok(Vec::new(alloc)),
    }
}
