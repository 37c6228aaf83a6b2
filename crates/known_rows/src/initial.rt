//! The initial archive of a farm as a row.

ghost use Rattle.std.specs.Prelude.{IfOk};
ghost use Rattle.farm_model.specs.Common.{initial, IsUniverse};
ghost use Rattle.sat_rows.specs.Rows.{IsRowOf};

use bit_rows::Row;
use farm_universe::Universe;
use std::alloc::{AllocError, Global};

/// The initial archive as a row.
#[tactic(auto, using(crate::proofs::InitialRow::initial_word))]
pub fn initial_row(alloc: Global, universe: &Universe) -> Result<Row, AllocError>
    requires sound { IsUniverse universe.now }
    ensures { IfOk result (IsRowOf universe.now (initial universe.now)) }
{
    let mut row = Row::new(alloc, universe.names() as usize)?;
    for name in 0..universe.names() {
        row.set_word(name as usize, universe.initial(name))?;
    }
    Ok(row)
}
