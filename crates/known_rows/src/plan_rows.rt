//! What the lanes of a plan know at each place.

ghost use Rattle.std.specs.Prelude.{◌≡◌, IfOk};
ghost use Rattle.plan_model.specs.Common.{IsGreatest, IsSound};
ghost use Rattle.known_rows.specs.Columns.{HaveColumns};
ghost use Rattle.known_rows.specs.KnownRows.{rows_of};
ghost use Rattle.known_rows.specs.Marks.{AreLanes, HavePast};

use crate::columns::{Counts, columns};
use crate::known::Known;
use crate::marks::{LaneOutputs, walk};
use crate::outputs::Outputs;
use crate::points::points;
use crate::visit::visit_of;
use farm_universe::Universe;
use plan_reader::Plan;
use sat_rows::Tables;
use std::alloc::{AllocError, Global};
use std::thread::Threads;

/// What the lanes of a plan know by their outputs and the columns of these.
fn known_of(
    alloc: Global,
    universe: &Universe,
    plan: &Plan,
    lanes: Vec<LaneOutputs>,
    columns: Vec<Counts>,
) -> Result<Known, AllocError>
    requires sound { IsSound universe.now plan.now.lanes }
    requires lanes { AreLanes universe.now plan.now.lanes lanes.items }
    requires past { HavePast universe.now plan.now.lanes lanes.items }
    requires columns { HaveColumns universe.now plan.now.lanes columns.items }
    ensures universe { IfOk result (λ known. known.universe ≡ universe.now) }
    ensures plan { IfOk result (λ known. known.plan ≡ plan.now.lanes) }
    ensures greatest { IfOk result (λ known. IsGreatest universe.now plan.now.lanes
        (rows_of known)) }
{
    let outputs = Outputs::of_lanes(alloc, universe, plan, lanes)?;
    Ok(Known::new(outputs, columns))
}

/// What each lane of a plan knows of the archive at each place: the variants that are there
/// whenever it stands there, whatever the other lanes did. As many threads work on it as there are
/// processors.
pub fn knowledge(
    rt: &(impl Threads + Sync),
    alloc: Global,
    universe: &Universe,
    tables: &Tables,
    plan: &Plan,
) -> Result<Known, AllocError>
    requires sound { IsSound universe.now plan.now.lanes }
    requires tables { tables.now ≡ universe.now }
    ensures universe { IfOk result (λ known. known.universe ≡ universe.now) }
    ensures plan { IfOk result (λ known. known.plan ≡ plan.now.lanes) }
    ensures greatest { IfOk result (λ known. IsGreatest universe.now plan.now.lanes
        (rows_of known)) }
{
    let marks = walk(alloc, universe, plan)?;
    let points = points(rt, alloc, universe, tables, plan, &marks)?;
    let visit = visit_of(alloc, &points)?;
    let columns = columns(rt, alloc, &marks.lanes, &points, &visit)?;
    known_of(alloc, universe, plan, marks.lanes, columns)
}
