//! The rows of the distinct entries of a universe.

ghost use Rattle.std.specs.Prelude.{◌<◌, Bool, List, IfOk, length};
ghost use Rattle.farm_model.specs.Packages.{satisfies_entry};
ghost use Rattle.farm_model.specs.declared.types.Variant.{Variant};
ghost use Rattle.sat_rows.specs.Found.{IsFound};
ghost use Rattle.sat_rows.specs.Links.{nth_list, AreSets};
ghost use Rattle.sat_rows.specs.Index.{IsProviding};
ghost use Rattle.sat_rows.specs.Rows.{IsRowOf};
ghost use Rattle.sat_rows.specs.Entries.{AreRowsOf};
ghost use Rattle.deb_relation.specs.Relations.{Entry};

use crate::found::{Found, satisfying};
use crate::row::row_of_found;
use bit_rows::Row;
use deb_relation::Atom;
use farm_universe::{Universe, Variant};
use item_index::ItemIndex;
use rayon::prelude::*;
use std::alloc::{AllocError, Global};
use std::thread::Threads;

/// The row of an entry.
pub fn row_of_entry(
    alloc: Global,
    universe: &Universe,
    providers: &ItemIndex<Variant>,
    entry: &[Atom],
) -> Result<Row, AllocError>
    requires { IsProviding universe.now providers.now }
    ensures { IfOk result (IsRowOf universe.now (satisfies_entry universe.now entry.now)) }
{
    let found = satisfying(alloc, universe, providers, entry)?;
    Ok(row_of_found(alloc, universe, &found)?)
}

/// Makes the row of each entry from the variants that satisfy it, by as many threads as there are
/// processors.
pub fn all_entry_rows(
    rt: &(impl Threads + Sync),
    alloc: Global,
    universe: &Universe,
    sets: &[Found],
) -> Result<Vec<Row>, AllocError>
    ensures { (entries : List Entry) → AreSets universe.now entries sets.now
        → IfOk result (λ rows. AreRowsOf universe.now entries rows.items) }
{
    let rows = (0..sets.len())
        .into_par_iter()
        .with_min_len(1)
        .map(
            move |number: usize| -> Result<Row, AllocError>
                requires { number < length sets.now }
                ensures { IfOk result (λ row. (p : Variant → Bool)
                    → IsFound universe.entry.now p (nth_list sets.entry.now number)
                    → IsRowOf universe.entry.now p row) }
            { Ok(row_of_found(alloc, universe, &sets[number])?) },
        )
        .collect::<Result<Vec<Row>, AllocError>>(rt, alloc)??;
    Ok(rows)
}
