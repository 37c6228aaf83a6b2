//! The items of the variants of a universe, listed under the names in them, so that a row looks at
//! few of them.

ghost use Rattle.std.specs.Prelude.{◌≡◌, IfOk, OnOk};
ghost use Rattle.farm_model.specs.Common.{package_of, IsKnown, Package};
ghost use Rattle.item_index.specs.Items.{KeepsItems};
ghost use Rattle.sat_rows.specs.Index.{AreNaming, IsNaming};
ghost use Rattle.deb_relation.specs.Relations.{Relations};

use crate::word::variant_count;
use deb_relation::Relations;
use farm_universe::{Universe, Variant};
use item_index::ItemIndex;
use std::alloc::{AllocError, Global};

/// A field of relations.
pub trait Field {
    ghost field: { Package → Relations };

    fn of<'a>(&self, universe: &'a Universe, variant: Variant) -> &'a Relations
        requires { IsKnown universe.now variant }
        ensures { result.now ≡ field (package_of universe.now variant) };
}

/// Provides.
pub struct Provides {}

impl Field for Provides {
    ghost field = { λ binary. binary.provides };

    fn of<'a>(&self, universe: &'a Universe, variant: Variant) -> &'a Relations {
        &universe.relations(variant).provides
    }
}

/// Conflicts.
pub struct Conflicts {}

impl Field for Conflicts {
    ghost field = { λ binary. binary.conflicts };

    fn of<'a>(&self, universe: &'a Universe, variant: Variant) -> &'a Relations {
        &universe.relations(variant).conflicts
    }
}

/// Breaks.
pub struct Breaks {}

impl Field for Breaks {
    ghost field = { λ binary. binary.breaks };

    fn of<'a>(&self, universe: &'a Universe, variant: Variant) -> &'a Relations {
        &universe.relations(variant).breaks
    }
}

/// Lists a field of each variant of a name.
fn add_name<F: Field>(
    index: &mut ItemIndex<Variant>,
    universe: &Universe,
    field: &F,
    name: u32,
) -> Result<(), AllocError>
    ensures kept { OnOk result (KeepsItems index.old index.new) }
    ensures names { OnOk result (AreNaming universe.now F.field name index.new) }
{
    for bit in 0..variant_count(universe, name) {
        let variant = Variant { name, bit };
        index.add_field(variant, field.of(universe, variant))?;
    }
    Ok(())
}

/// How many entries a field has in all variants of a universe.
pub fn entries<F: Field>(universe: &Universe, field: &F) -> usize {
    let mut count = 0usize;
    for name in 0..universe.names() {
        for bit in 0..variant_count(universe, name) {
            let relations = field.of(universe, Variant { name, bit });
            count = count.saturating_add(relations.entries().len());
        }
    }
    count
}

/// Lists a field of each variant of a universe, by as many lists as there are entries.
pub fn naming<F: Field>(
    alloc: Global,
    universe: &Universe,
    field: &F,
) -> Result<ItemIndex<Variant>, AllocError>
    ensures { IfOk result (IsNaming universe.now F.field) }
{
    let mut index = ItemIndex::new(alloc, entries(universe, field))?;
    for name in 0..universe.names() {
        add_name(&mut index, universe, field, name)?;
    }
    Ok(index)
}
