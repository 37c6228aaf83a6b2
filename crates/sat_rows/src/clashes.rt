//! The rows of the clashes of recipes.

ghost use Rattle.std.specs.Prelude.{◌≡◌, ◌<◌, IfOk, length};
ghost use Rattle.farm_model.specs.Packages.{recipe, satisfies_any};
ghost use Rattle.sat_rows.specs.Index.{IsProviding};
ghost use Rattle.sat_rows.specs.Rows.{IsSharedRow};
ghost use Rattle.sat_rows.specs.Clashes.{AreClashes};

use crate::found::satisfying_any;
use crate::row::shared_row;
use bit_rows::Row;
use farm_universe::{Universe, Variant};
use item_index::ItemIndex;
use rayon::prelude::*;
use std::alloc::{AllocError, Global};
use std::thread::Threads;

fn clashes_row(
    alloc: Global,
    universe: &Universe,
    providers: &ItemIndex<Variant>,
    number: u32,
) -> Result<Option<Row>, AllocError>
    requires providers { IsProviding universe.now providers.now }
    requires there { number < length universe.now.recipes }
    ensures { IfOk result
        (IsSharedRow universe.now
        (satisfies_any universe.now (recipe universe.now number).clashes)) }
{
    let clashes = universe.recipe(number).clashes();
    let found = satisfying_any(alloc, universe, providers, clashes)?;
    Ok(shared_row(alloc, universe, &found)?)
}

/// Makes the row of the clashes of each recipe, by as many threads as there are processors. A row
/// without variants is left out.
pub fn all_clashes(
    rt: &(impl Threads + Sync),
    alloc: Global,
    universe: &Universe,
    providers: &ItemIndex<Variant>,
) -> Result<Vec<Option<Row>>, AllocError>
    requires { IsProviding universe.now providers.now }
    ensures { IfOk result (λ rows. AreClashes universe.now rows.items) }
{
    let rows = (0..universe.recipes())
        .into_par_iter()
        .with_min_len(1)
        .map(
            move |number: u32| -> Result<Option<Row>, AllocError>
                requires providers { IsProviding universe.now providers.now }
                requires there { number < length universe.now.recipes }
                ensures { IfOk result (IsSharedRow universe.entry.now
                    (satisfies_any universe.entry.now (recipe universe.entry.now number).clashes)) }
            { clashes_row(alloc, universe, providers, number) },
        )
        .collect::<Result<Vec<Option<Row>>, AllocError>>(rt, alloc)??;
    Ok(rows)
}
