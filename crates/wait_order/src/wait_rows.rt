//! The rows of the entries that waits name, each made once.

ghost use Rattle.std.specs.Prelude.{◌≡◌, Bool, length, IfOk};
ghost use Rattle.deb_relation.specs.Relations as relations;
ghost use Rattle.farm_model.specs.Packages.{names, satisfies_entry};
ghost use Rattle.farm_model.specs.declared.types.Variant.{Variant};
ghost use Rattle.farm_model.specs.Universe as universes;
ghost use Rattle.plan_model.specs.Turn.{passes};
ghost use Rattle.sat_rows.specs.Rows.{IsRowOf};
ghost use Rattle.known_rows.specs.Entries.{IsEntryRow, AreFor};

use bit_rows::Row;
use deb_relation::Entry;
use farm_universe::Universe;
use known_rows::Entries;
use sat_rows::Tables;
use std::alloc::{AllocError, Global};
use std::marker::Model;
use std::snapshot::Snapshot;

/// The rows of entries by their numbers. A contract sees the universe that they are about.
#[derive(Drop)]
pub struct WaitRows<'p> {
    universe: Snapshot<Universe>,
    entries: Entries<'p>,
    rows: Vec<Row>,
}

impl<'p> Model for WaitRows<'p> {
    ghost use Rattle.farm_model.specs.Universe as model;
    ghost use Rattle.known_rows.specs.Entries.{IsEntryRow, AreFor};

    ghost Value = { model.Universe };

    ghost view = { λ rows. rows.universe.value };

    ghost invariant = { λ rows. AreFor (IsEntryRow rows.universe.value) rows.entries
        rows.rows.items };
}

/// Tells whether some variant of both rows is there: where one row is that of an entry, whether a
/// wait for it passes.
#[tactic(auto, using(crate::proofs::Passes::hit_passes))]
fn is_met(archive: &Row, row: &Row) -> bool
    requires { length archive.now ≡ length row.now }
    ensures { (u : universes.Universe) (e : relations.Entry) (test : Variant → Bool)
        → IsRowOf u (satisfies_entry u e) row.now → IsRowOf u test archive.now
        → result ≡ passes u test e }
{
    archive.hits(row)
}

impl<'p> WaitRows<'p> {
    /// Makes the rows of no entry.
    pub fn new(alloc: Global, universe: &Universe) -> Result<WaitRows<'p>, AllocError>
        ensures { IfOk result (λ rows. rows ≡ universe.now) }
    {
        Ok(WaitRows {
            universe: Snapshot::of(universe),
            entries: Entries::new(alloc)?,
            rows: Vec::new(alloc),
        })
    }

    /// Tells whether a wait passes.
    pub fn passes(
        &mut self,
        alloc: Global,
        universe: &Universe,
        tables: &Tables,
        entry: &'p Entry,
        archive: &Row,
    ) -> Result<bool, AllocError>
        requires about { self.old ≡ universe.now }
        requires tables { tables.now ≡ universe.now }
        requires archive { length archive.now ≡ names universe.now }
        ensures passes { IfOk result (λ passed. (test : Variant → Bool)
            → IsRowOf universe.now test archive.now
            → passed ≡ passes universe.now test entry.now) }
        ensures same { self.new ≡ self.old }
    {
        let number = self.entries.number(entry)?;
        if number < self.rows.len() {
            return Ok(is_met(archive, &self.rows[number]));
        }
        let row = tables.entry_row(alloc, universe, entry)?;
        let passed = is_met(archive, &row);
        if number == self.rows.len() {
            self.rows.push(row)?;
        }
        Ok(passed)
    }
}
