//! The variants of a universe that pass a test, as a row.

ghost use Rattle.std.specs.Prelude.{◌≡◌, ◌<◌, ◌||◌, ◌&&◌, ◌==◌, ℕ, Bool, IfOk, OnOk, length};
ghost use Rattle.bit_rows.specs.Sets.{variants_of};
ghost use Rattle.clause_kernel.specs.Rows.{word_has};
ghost use Rattle.farm_model.specs.Packages.{names, satisfies_entry};
ghost use Rattle.farm_model.specs.declared.types.Variant.{Variant};
ghost use Rattle.sat_rows.specs.Rows.{IsRowOf, IsSharedRow};
ghost use Rattle.sat_rows.specs.Found.{IsFound};

use crate::found::Found;
use crate::word::word_for;
use bit_rows::Row;
use deb_relation::Entry;
use farm_universe::relations::{SatisfiesEntry, VariantTest};
use farm_universe::{Universe, Variant};
use std::alloc::{AllocError, Global};

/// The variants that pass a test.
fn row_of<T: VariantTest>(alloc: Global, universe: &Universe, test: &T) -> Result<Row, AllocError>
    requires { T.fits universe.now test.now }
    ensures { IfOk result (IsRowOf universe.now (T.test universe.now test.now)) }
{
    let mut row = Row::new(alloc, universe.names() as usize)?;
    for name in 0..universe.names() {
        row.set_word(name as usize, word_for(universe, name, test))?;
    }
    Ok(row)
}

/// The variants that satisfy an entry (Debian Policy 7.1 and 7.5).
pub fn entry_row(alloc: Global, universe: &Universe, entry: &Entry) -> Result<Row, AllocError>
    ensures { IfOk result (IsRowOf universe.now (satisfies_entry universe.now entry.now)) }
{
    row_of(alloc, universe, &SatisfiesEntry { entry })
}

/// Adds variants of a name to a row, where that has a word for it.
fn add_word(row: &mut Row, name: usize, word: u64) -> Result<(), AllocError>
    ensures set { OnOk result ((n b : ℕ) → n < length row.old
        → variants_of row.new n b ≡ (variants_of row.old n b || ((n == name) && word_has word b))) }
    ensures len { length row.new ≡ length row.old }
{
    if name < row.len() {
        row.add_word(name, word)?;
    }
    Ok(())
}

/// The row of variants that were found.
pub fn row_of_found(alloc: Global, universe: &Universe, found: &Found) -> Result<Row, AllocError>
    ensures set { IfOk result (λ row. (p : Variant → Bool) → IsFound universe.now p found.now
        → IsRowOf universe.now p row) }
    ensures len { IfOk result (λ row. length row ≡ names universe.now) }
{
    let mut row = Row::with_room(alloc, universe.names() as usize, found.words().len())?;
    for found in found.words() {
        add_word(&mut row, found.number, found.word)?;
    }
    Ok(row)
}

/// The row of variants that were found, if there are any.
pub fn shared_row(
    alloc: Global,
    universe: &Universe,
    found: &Found,
) -> Result<Option<Row>, AllocError>
    ensures { IfOk result (λ row. (p : Variant → Bool) → IsFound universe.now p found.now
        → IsSharedRow universe.now p row) }
{
    if found.words().is_empty() {
        return Ok(None);
    }
    Ok(Some(row_of_found(alloc, universe, found)?))
}
