//! The variants that satisfy each of the distinct entries of a universe.

ghost use Rattle.std.specs.Prelude.{◌≡◌, ◌<◌, IfOk, Some, length, slice_get};
ghost use Rattle.deb_relation.specs.Relations.{Entry};
ghost use Rattle.farm_model.specs.Packages.{satisfies_entry};
ghost use Rattle.sat_rows.specs.Found.{IsFound};
ghost use Rattle.sat_rows.specs.Index.{IsProviding};
ghost use Rattle.sat_rows.specs.Links.{AreSets};

use crate::entries::Entries;
use crate::found::{Found, satisfying};
use farm_universe::{Universe, Variant};
use item_index::ItemIndex;
use rayon::prelude::*;
use std::alloc::{AllocError, Global};
use std::thread::Threads;

/// How many entries one thread takes at least: to start another for fewer would take longer.
const ENTRIES_AT_ONCE: usize = 64;

/// The variants that satisfy each of the entries, by as many threads as there are processors.
pub fn all_sets(
    rt: &(impl Threads + Sync),
    alloc: Global,
    universe: &Universe,
    providers: &ItemIndex<Variant>,
    entries: &Entries,
) -> Result<Vec<Found>, AllocError>
    requires { IsProviding universe.now providers.now }
    ensures { IfOk result (λ sets. AreSets universe.now entries.now sets.items) }
{
    let sets = (0..entries.len())
        .into_par_iter()
        .with_min_len(ENTRIES_AT_ONCE)
        .map(
            move |number: usize| -> Result<Found, AllocError>
                requires providers { IsProviding universe.now providers.now }
                requires there { number < length entries.now }
                ensures { IfOk result
                    (λ set. (e : Entry) → slice_get entries.entry.now number ≡ Some e
                    → IsFound universe.entry.now (satisfies_entry universe.entry.now e) set) }
            { satisfying(alloc, universe, providers, entries.entry(number)) },
        )
        .collect::<Result<Vec<Found>, AllocError>>(rt, alloc)??;
    Ok(sets)
}
