//! Which names may have a variant that satisfies an alternative.

ghost use Rattle.std.specs.Prelude.{◌<◌, ◌≡◌, IfOk, OnOk};
ghost use Rattle.farm_model.specs.Packages.{names};
ghost use Rattle.item_index.specs.Items.{KeepsItems};
ghost use Rattle.farm_lookup.specs.Candidates.{AreCandidates, HasAll, IsCandidate};

use farm_universe::{Universe, Variant};
use item_index::{Item, ItemIndex};
use std::alloc::{AllocError, Global};
use std::marker::Model;
use std::snapshot::Snapshot;

/// Lists a name under its text, and under what its variants provide.
fn add_name(index: &mut ItemIndex<u32>, universe: &Universe, name: u32) -> Result<(), AllocError>
    requires { name < names universe.now }
    ensures kept { OnOk result (KeepsItems index.old index.new) }
    ensures listed { OnOk result (IsCandidate universe.now name index.new) }
{
    let own = Item {
        owner: name,
        entry: 0,
        alternative: 0,
    };
    index.add(universe.name_text(name), own)?;
    for bit in 0..universe.variants(name) {
        let relations = universe.relations(Variant { name, bit });
        index.add_field(name, &relations.provides)?;
    }
    Ok(())
}

/// Lists each name of a universe.
fn all_names(alloc: Global, universe: &Universe) -> Result<ItemIndex<u32>, AllocError>
    ensures { IfOk result (AreCandidates universe.now) }
{
    let mut index = ItemIndex::new(alloc, universe.names() as usize)?;
    for name in 0..universe.names() {
        add_name(&mut index, universe, name)?;
    }
    Ok(index)
}

/// The names of a universe, each under its text and under what its variants provide. A contract
/// sees the universe.
#[derive(Drop)]
pub struct Candidates {
    universe: Snapshot<Universe>,
    names: ItemIndex<u32>,
}

impl Model for Candidates {
    ghost use Rattle.farm_model.specs.Universe as model;
    ghost use Rattle.farm_lookup.specs.Candidates.{AreCandidates};

    ghost Value = { model.Universe };

    ghost view = { λ candidates. candidates.universe.value };

    ghost invariant = { λ candidates.
        AreCandidates candidates.universe.value candidates.names };
}

impl Candidates {
    /// Those of a universe.
    pub fn of(alloc: Global, universe: &Universe) -> Result<Candidates, AllocError>
        ensures { IfOk result (λ candidates. candidates ≡ universe.now) }
    {
        Ok(Candidates {
            universe: Snapshot::of(universe),
            names: all_names(alloc, universe)?,
        })
    }

    /// The names that may have a variant which satisfies an alternative of this name, and perhaps
    /// others.
    pub fn named(&self, text: &[u8]) -> &[Item<u32>]
        ensures { HasAll self.now text.now result.now }
    {
        self.names.listed(text)
    }
}
