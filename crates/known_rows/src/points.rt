//! The waits and `when`s of a plan as points of the columns, each with the outputs that it looks
//! for.

ghost use Rattle.std.specs.Prelude.{◌≡◌, ◌<◌, ◌++◌, ◌∷◌, [], length, slice_index_or, if◌then◌else◌, IfOk, OnOk};
ghost use Rattle.std.specs.List.{filter};
ghost use Rattle.farm_model.specs.Packages.{names};
ghost use Rattle.plan_model.specs.Common.{is_of, IsSound};
ghost use Rattle.sat_rows.specs.Rows.{IsRowOf};
ghost use Rattle.known_rows.specs.Points.{AreSources, ArePoints};
ghost use Rattle.known_rows.specs.Marks.{all_marks, AreLanes, IsMark};
ghost use Rattle.known_rows.specs.EntrySources.{IsFoundFor, AreFoundFor};
ghost use Rattle.known_rows.specs.Hits as hits;
ghost use Rattle.known_rows.specs.Supply.{IsWhole};
ghost use Rattle.known_rows.specs.Hits.{IsPointOf};

use crate::column::{Point, Source};
use crate::entry_sources::{Sources, all_sources, named_entries};
use crate::marks::{Mark, Marks};
use crate::supply::{Supply, sources_of, stock_of};
use bit_rows::Row;
use deb_relation::{Op, view_relation};
use deb_version::Version;
use farm_universe::Universe;
use plan_reader::{Instruction, Plan};
use sat_rows::{Tables, mask};
use std::alloc::{AllocError, Global};
use std::thread::Threads;

/// Tells whether a point may meet a source: of its own lane only an output before it.
fn may_meet(mark: Mark, source: Source) -> bool
    ensures { result ≡ hits.may_meet mark source }
{
    if source.lane == mark.lane {
        source.count <= mark.own as u64
    } else {
        true
    }
}

/// Puts a source that a point may meet behind the others.
fn push_met(source: Source, mark: Mark, sources: &mut Vec<Source>) -> Result<(), AllocError>
    ensures { OnOk result (sources.new.items
        ≡ sources.old.items ++ (if hits.may_meet mark source then source ∷ [] else [])) }
{
    if may_meet(mark, source) {
        sources.push(source)?;
    }
    Ok(())
}

/// Those of some sources that a point may meet.
fn met_sources(alloc: Global, all: &[Source], mark: Mark) -> Result<Vec<Source>, AllocError>
    ensures { IfOk result (λ sources. sources.items ≡ filter (hits.may_meet mark) all.now) }
{
    let mut sources = Vec::with_capacity(alloc, all.len())?;
    for k in 0..all.len() {
        push_met(all[k], mark, &mut sources)?;
    }
    Ok(sources)
}

/// The variants of a name that a `when` looks for, as a row.
fn name_row(
    alloc: Global,
    universe: &Universe,
    name: u32,
    relation: &Option<(Op, Version)>,
) -> Result<Row, AllocError>
    requires { name < names universe.now }
    ensures { IfOk result (IsRowOf universe.now (is_of universe.now name relation.now)) }
{
    let mut row = Row::new(alloc, universe.names() as usize)?;
    row.set_word(name as usize, mask(universe, name, view_relation(relation)))?;
    Ok(row)
}

/// The sources of a `when`.
fn when_sources(
    alloc: Global,
    supply: Supply<'_>,
    mark: Mark,
    name: u32,
    relation: &Option<(Op, Version)>,
) -> Result<Vec<Source>, AllocError>
    requires supply { IsWhole supply }
    requires mark { IsMark supply.universe.now supply.plan.now.lanes mark }
    requires name { name < names supply.universe.now }
    ensures { IfOk result (λ sources. AreSources supply.entry.universe.now
        supply.entry.plan.now.lanes mark.lane mark.place
        (is_of supply.entry.universe.now name relation.now) sources.items) }
{
    let row = name_row(alloc, supply.universe, name, relation)?;
    let all = sources_of(alloc, supply, &row)?;
    let sources = met_sources(alloc, &all, mark)?;
    Ok(sources)
}

/// A point with its sources.
fn point_with(mark: Mark, sources: Vec<Source>) -> Point
    ensures { result ≡ record {
      lane = mark.lane;
      place = mark.place;
      own = mark.own;
      before = mark.before;
      sources = sources;
    } }
{
    Point {
        lane: mark.lane,
        place: mark.place,
        own: mark.own as u64,
        before: mark.before,
        sources,
    }
}

/// The sources of the entry of a number.
fn found_at(all: &[Sources], number: usize) -> &[Source]
    requires { number < length all.now }
    ensures { result.now ≡ slice_index_or all.now number [] }
{
    all[number].sources()
}

/// The point of a mark, where its entry has this number.
fn point_of(
    alloc: Global,
    supply: Supply<'_>,
    mark: Mark,
    number: usize,
    all: &[Sources],
) -> Result<Point, AllocError>
    requires supply { IsWhole supply }
    requires mark { IsMark supply.universe.now supply.plan.now.lanes mark }
    requires sources { IsFoundFor supply.universe.now supply.plan.now.lanes all.now mark number }
    ensures { IfOk result
        (IsPointOf supply.entry.universe.now supply.entry.plan.now.lanes mark) }
{
    match &supply.plan.lane(mark.lane).instructions()[mark.place] {
        Instruction::Wait(_) => {
            let sources = met_sources(alloc, found_at(all, number), mark)?;
            Ok(point_with(mark, sources))
        }
        Instruction::When { name, relation } => {
            let sources = when_sources(alloc, supply, mark, *name, relation)?;
            Ok(point_with(mark, sources))
        }
        Instruction::Unpack { .. }
        | Instruction::Configure(_)
        | Instruction::Deconfigure(_)
        | Instruction::Remove(_)
        | Instruction::Build(_)
        | Instruction::Publish(_)
        | Instruction::Otherwise
        | Instruction::EndWhen => Ok(point_with(mark, Vec::new(alloc))),
    }
}

/// The points of all marks, by the sources of the entries that they name.
fn points_by(
    alloc: Global,
    supply: Supply<'_>,
    marks: &[Mark],
    numbers: &[usize],
    all: &[Sources],
) -> Result<Vec<Point>, AllocError>
    requires supply { IsWhole supply }
    requires marks { marks.now
        ≡ all_marks supply.universe.now supply.plan.now.lanes (length supply.plan.now.lanes) }
    requires sources { AreFoundFor supply.universe.now supply.plan.now.lanes all.now marks.now
        numbers.now }
    ensures { IfOk result
        (λ points. ArePoints supply.entry.universe.now supply.entry.plan.now.lanes points.items) }
{
    let mut points = Vec::with_capacity(alloc, marks.len())?;
    for w in 0..marks.len() {
        points.push(point_of(alloc, supply, marks[w], numbers[w], all)?)?;
    }
    Ok(points)
}

/// The points of a plan, whose sources as many threads find as there are processors.
pub fn points(
    rt: &(impl Threads + Sync),
    alloc: Global,
    universe: &Universe,
    tables: &Tables,
    plan: &Plan,
    marks: &Marks,
) -> Result<Vec<Point>, AllocError>
    requires sound { IsSound universe.now plan.now.lanes }
    requires tables { tables.now ≡ universe.now }
    requires marks { marks.now.marks.items
        ≡ all_marks universe.now plan.now.lanes (length plan.now.lanes) }
    requires lanes { AreLanes universe.now plan.now.lanes marks.now.lanes.items }
    ensures { IfOk result (λ points. ArePoints universe.now plan.now.lanes points.items) }
{
    let lanes = marks.lanes.as_slice();
    let all = marks.marks.as_slice();
    let stock = stock_of(alloc, universe, tables, plan, lanes)?;
    let supply = Supply {
        universe,
        tables,
        plan,
        archive: &stock.archive,
        lanes,
        by_name: &stock.by_name,
    };
    let named = named_entries(alloc, plan, all)?;
    let sources = all_sources(rt, alloc, supply, &named.entries)?;
    points_by(alloc, supply, all, &named.numbers, &sources)
}
