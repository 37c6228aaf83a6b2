//! An order of the waits of a plan, or the lanes that have none.

ghost use Rattle.std.specs.Prelude.{◌≡◌, ◌<◌, ◌++◌, ◌∷◌, [], ℕ, true, false, length, nat_lt, if◌then◌else◌, IfOk, OnOk, IfErr};
ghost use Rattle.std.specs.List.{filter, range_with_len};
ghost use Rattle.farm_model.specs.Packages.{names};
ghost use Rattle.plan_model.specs.Common.{lane, IsOrder, IsSound};
ghost use Rattle.wait_order.specs.Standing.{place_of, AreStanding, IsRound};
ghost use Rattle.wait_order.specs.Settled.{IsSettled};
ghost use Rattle.wait_order.specs.Answer.{IsWhyNone};

use crate::standing::{Course, Standing, advance};
use crate::wait_rows::WaitRows;
use bit_rows::Row;
use farm_universe::Universe;
use known_rows::initial_row;
use plan_reader::Plan;
use sat_rows::Tables;
use std::alloc::{AllocError, AllocFailed, Global};

/// Why a plan has no order of its waits.
#[derive(Debug, Drop)]
pub enum OrderError {
    /// The lanes of these numbers, in file order, are those that no list of waits and outputs
    /// brings past their last one.
    Stuck(Vec<u32>),
    /// Memory ran out.
    Memory,
}

impl From<AllocError> for OrderError {
    ghost use Rattle.wait_order.specs.declared.rounds.OrderError.{OrderError};

    ghost from_gives = { λ _ error. error ≡ OrderError.Memory };

    fn from(_error: AllocError) -> OrderError {
        OrderError::Memory
    }
}

impl<T: Drop> From<AllocFailed<T>> for OrderError {
    ghost use Rattle.wait_order.specs.declared.rounds.OrderError.{OrderError};

    ghost from_gives = { λ _ error. error ≡ OrderError.Memory };

    fn from(_error: AllocFailed<T>) -> OrderError {
        OrderError::Memory
    }
}

/// Each lane at its beginning.
fn starts(alloc: Global, universe: &Universe, plan: &Plan) -> Result<Vec<Standing>, AllocError>
    ensures standing { IfOk result (λ ats. AreStanding universe.now plan.now.lanes ats.items) }
    ensures at_start { IfOk result (λ ats. (l : ℕ) → place_of ats.items l ≡ 0) }
{
    let mut ats = Vec::new(alloc);
    for _number in 0..plan.lanes() {
        ats.push(Standing { place: 0 })?;
    }
    Ok(ats)
}

/// Takes each lane on as far as it goes, in file order, and tells whether one moved.
fn round<'p>(
    course: Course<'p>,
    ats: &mut [Standing],
    rows: &mut WaitRows<'p>,
    archive: &mut Row,
    order: &mut Vec<u32>,
) -> Result<bool, AllocError>
    requires standing { AreStanding course.universe.now course.plan.now.lanes ats.old }
    requires archive { length archive.old ≡ names course.universe.now }
    requires rows { rows.old ≡ course.universe.now }
    ensures round { IfOk result (IsRound course.entry.universe.now course.entry.plan.now.lanes
        ats.old ats.new order.old.items archive.old order.new.items archive.new
        (length course.entry.plan.now.lanes)) }
    ensures rows { rows.new ≡ rows.old }
{
    let mut moved = false;
    for number in 0..course.plan.lanes() {
        let at = &mut ats[number];
        if advance(course, number as u32, at, rows, archive, order)? {
            moved = true;
        }
    }
    Ok(moved)
}

/// Puts a lane behind others, unless it stands at its end.
fn add_left(
    plan: &Plan,
    ats: &[Standing],
    number: u32,
    lanes: &mut Vec<u32>,
) -> Result<(), AllocError>
    requires lane { number < length plan.now.lanes }
    requires long { length ats.now ≡ length plan.now.lanes }
    ensures { OnOk result (lanes.new.items ≡ lanes.old.items
        ++ (if nat_lt (place_of ats.now number) (length (lane plan.now.lanes number).instructions)
        then number ∷ [] else [])) }
{
    let number_here = number as usize;
    if ats[number_here].place >= plan.lane(number_here).instructions().len() {
        return Ok(());
    }
    lanes.push(number)?;
    Ok(())
}

/// The lanes that do not stand at their end.
fn lanes_left(alloc: Global, plan: &Plan, ats: &[Standing]) -> Result<Vec<u32>, AllocError>
    requires { length ats.now ≡ length plan.now.lanes }
    ensures { IfOk result (λ lanes. lanes.items
        ≡ filter (λ l. nat_lt (place_of ats.now l) (length (lane plan.now.lanes l).instructions))
        (range_with_len 0 (length plan.now.lanes))) }
{
    let mut lanes = Vec::new(alloc);
    for number in 0..plan.lanes() {
        add_left(plan, ats, number as u32, &mut lanes)?;
    }
    Ok(lanes)
}

/// The lanes of a plan where none of them goes on.
#[derive(Drop)]
pub struct Settled {
    /// Where each lane stands, in file order.
    pub standings: Vec<Standing>,
    /// The lanes whose waits and outputs were made, one after another.
    pub order: Vec<u32>,
}

/// Makes the waits and outputs of a plan's lanes until none goes on: in rounds, each lane as far as
/// it goes, in file order.
pub fn settle(
    alloc: Global,
    universe: &Universe,
    tables: &Tables,
    plan: &Plan,
) -> Result<Settled, AllocError>
    requires sound { IsSound universe.now plan.now.lanes }
    requires tables { tables.now ≡ universe.now }
    ensures standing { IfOk result (λ settled.
        AreStanding universe.now plan.now.lanes settled.standings.items) }
    ensures settled { IfOk result (λ settled. IsSettled universe.now plan.now.lanes
        settled.order.items settled.standings.items) }
{
    let mut archive = initial_row(alloc, universe)?;
    let mut standings = starts(alloc, universe, plan)?;
    let mut rows = WaitRows::new(alloc, universe)?;
    let mut order = Vec::new(alloc);
    let course = Course {
        alloc,
        universe,
        tables,
        plan,
    };
    while round(course, &mut standings, &mut rows, &mut archive, &mut order)? {}
    Ok(Settled { standings, order })
}

/// Finds an order in which the waits of a plan pass: the lanes whose waits and outputs are made,
/// one after another, as [`settle`] makes them.
///
/// # Errors
///
/// [`OrderError::Stuck`] where there is no order. [`OrderError::Memory`] where memory ran out.
pub fn order(
    alloc: Global,
    universe: &Universe,
    tables: &Tables,
    plan: &Plan,
) -> Result<Vec<u32>, OrderError>
    requires sound { IsSound universe.now plan.now.lanes }
    requires tables { tables.now ≡ universe.now }
    ensures order { IfOk result (λ order. IsOrder universe.now plan.now.lanes order.items) }
    ensures stuck { IfErr result (IsWhyNone universe.now plan.now.lanes) }
{
    let Settled {
        standings: ats,
        order,
    } = settle(alloc, universe, tables, plan)?;
    let stuck = lanes_left(alloc, plan, &ats)?;
    if stuck.as_slice().is_empty() {
        Ok(order)
    } else {
        Err(OrderError::Stuck(stuck))
    }
}
