//! What a plan supplies to its points: the initial archive, and the outputs of its lanes.

ghost use Rattle.std.specs.Prelude.{◌≡◌, ℕ, Bool, List, length, IfOk, OnOk};
ghost use Rattle.farm_model.specs.Packages.{names};
ghost use Rattle.farm_model.specs.declared.types.Variant.{Variant};
ghost use Rattle.plan_model.specs.Plan as model;
ghost use Rattle.plan_model.specs.Sound.{IsSound};
ghost use Rattle.sat_rows.specs.Rows.{IsRowOf};
ghost use Rattle.known_rows.specs.Points.{AreSources};
ghost use Rattle.known_rows.specs.Marks.{AreLanes};
ghost use Rattle.known_rows.specs.Supply.{IsSupply, IsWhole};
ghost use Rattle.known_rows.specs.Hits.{IsFirst, IsPushed, AreSourcesBelow};

use crate::by_name::ByName;
use crate::column::Source;
use crate::first_hits::first_hits;
use crate::initial::initial_row;
use crate::known_outputs::KnownOutputs;
use crate::marks::{LaneOutputs, Output};
use bit_rows::Row;
use farm_universe::Universe;
use plan_reader::Plan;
use sat_rows::Tables;
use std::alloc::{AllocError, Global};

/// What a plan over a universe supplies: the initial archive, and the outputs of its lanes, by
/// name.
#[derive(Clone, Copy)]
pub struct Supply<'a> {
    pub universe: &'a Universe,
    pub tables: &'a Tables,
    pub plan: &'a Plan,
    pub archive: &'a Row,
    pub lanes: &'a [LaneOutputs],
    pub by_name: &'a ByName,
}

/// The initial archive as a row, and the outputs of the lanes of a plan by name.
#[derive(Drop)]
pub struct Stock {
    pub archive: Row,
    pub by_name: ByName,
}

/// Makes what a plan supplies beside its lanes.
pub fn stock_of(
    alloc: Global,
    universe: &Universe,
    tables: &Tables,
    plan: &Plan,
    lanes: &[LaneOutputs],
) -> Result<Stock, AllocError>
    requires sound { IsSound universe.now plan.now.lanes }
    requires tables { tables.now ≡ universe.now }
    requires lanes { AreLanes universe.now plan.now.lanes lanes.now }
    ensures { IfOk result (λ stock. IsSupply universe.now plan.now.lanes tables.now stock.archive
        lanes.now stock.by_name) }
{
    let archive = initial_row(alloc, universe)?;
    let known = KnownOutputs { universe, lanes };
    let by_name = ByName::of(alloc, known)?;
    Ok(Stock { archive, by_name })
}

/// Puts the first output of a lane that a row has behind the sources, where there is one.
fn push_hit(
    number: usize,
    outputs: &[Output],
    first: usize,
    sources: &mut Vec<Source>,
) -> Result<(), AllocError>
    ensures { OnOk result ((row : List ℕ) → IsFirst row outputs.now first
        → IsPushed row outputs.now (length outputs.now) number sources.old.items
        sources.new.items) }
{
    if first >= outputs.len() {
        return Ok(());
    }
    sources.push(Source {
        point: outputs[first].point,
        lane: number,
        count: first as u64 + 1,
    })?;
    Ok(())
}

/// The source of the initial variants that a row has, where there are any.
fn initial_sources(alloc: Global, supply: Supply<'_>, row: &Row) -> Result<Vec<Source>, AllocError>
    requires supply { IsWhole supply }
    requires row { length row.now ≡ names supply.universe.now }
    ensures { IfOk result (λ sources. (test : Variant → Bool)
        → IsRowOf supply.entry.universe.now test row.now → (p : model.Plan) (l i : ℕ)
        → AreSourcesBelow supply.entry.universe.now p l i test sources.items 0) }
{
    let mut sources = Vec::new(alloc);
    if !supply.archive.hits(row) {
        return Ok(sources);
    }
    sources.push(Source {
        point: None,
        lane: 0,
        count: 0,
    })?;
    Ok(sources)
}

/// The sources of a point that stands in no lane of the plan, and looks for what a row has.
pub fn sources_of(alloc: Global, supply: Supply<'_>, row: &Row) -> Result<Vec<Source>, AllocError>
    requires supply { IsWhole supply }
    requires row { length row.now ≡ names supply.universe.now }
    ensures { IfOk result (λ sources. (test : Variant → Bool)
        → IsRowOf supply.entry.universe.now test row.now
        → AreSources supply.entry.universe.now supply.entry.plan.now.lanes
        (length supply.entry.plan.now.lanes) 0 test sources.items) }
{
    let lanes = supply.lanes;
    let known = KnownOutputs {
        universe: supply.universe,
        lanes,
    };
    let mut sources = initial_sources(alloc, supply, row)?;
    let firsts = first_hits(alloc, known, row, supply.by_name)?;
    for number in 0..lanes.len() {
        let outputs = lanes[number].outputs.as_slice();
        push_hit(number, outputs, firsts[number], &mut sources)?;
    }
    Ok(sources)
}
