//! What the verdict on a plan is asked of.

ghost use Rattle.std.specs.Prelude.{◌≡◌, Err, IfErr, IfOk};
ghost use Rattle.plan_model.specs.Common.{IsGreatest, KeepsRows, IsOrder, count, IsSound};
ghost use Rattle.plan_verifier.specs.Costs.{IsWalked};
ghost use Rattle.plan_verifier.specs.Examined.{accepted_with, knowledge_of, IsGrounds};
ghost use Rattle.plan_verifier.specs.Stage.{IsStage};
ghost use Rattle.plan_verifier.specs.Verdict.{IsVerdictOn};
ghost use Rattle.wait_order.specs.Answer.{IsWhyNone};
ghost use Rattle.known_rows.specs.KnownRows.{rows_of};

use crate::accepted::Accepted;
use crate::costs::check_lanes;
use crate::refusal::Refusal;
use crate::stage::Stage;
use crate::stuck::stuck_refusal;
use farm_universe::Universe;
use known_rows::{Known, knowledge};
use plan_reader::{Plan, Planned};
use sat_rows::Tables;
use std::alloc::{AllocError, Global};
use std::marker::Model;
use std::thread::{Threads, join};
use wait_order::{OrderError, order};

/// What the acceptance of a plan rests on.
#[derive(Drop)]
pub struct Grounds {
    pub(crate) order: Vec<u32>,
    pub(crate) costs: Vec<u64>,
}

/// A plan over a universe, with what the verdict on it is asked of: the rows of the universe, and
/// what the plan's lanes know of the archive.
#[derive(Drop)]
pub struct Examined {
    planned: Planned,
    tables: Tables,
    known: Known,
}

impl Model for Examined {
    ghost use Rattle.plan_verifier.specs.Examined.{ExaminedPlan, IsExamined};
    ghost use Rattle.std.specs.Prelude.{◌≡◌};
    ghost use Rattle.plan_model.specs.Plan.{count};

    ghost Value = { ExaminedPlan };

    ghost view = { λ e. record {
      universe = e.planned.universe;
      plan = e.planned.plan.lanes;
      lines = e.planned.plan.lines;
      known = e.known;
    } };

    ghost invariant = { λ e. IsExamined (record {
      universe = e.planned.universe;
      plan = e.planned.plan.lanes;
      lines = e.planned.plan.lines;
      known = e.known;
    }) × (e.tables ≡ e.planned.universe)
        × (e.planned.plan.count ≡ count e.planned.universe e.planned.plan.lanes) };
}

/// Walks over the lanes, and looks for an order of their waits beside that: neither asks for the
/// other.
fn walks_beside_order(
    rt: &(impl Threads + Sync),
    alloc: Global,
    universe: &Universe,
    tables: &Tables,
    plan: &Plan,
    known: &Known,
) -> (Result<Vec<u64>, Refusal>, Result<Vec<u32>, OrderError>)
    requires sound { IsSound universe.now plan.now.lanes }
    requires tables { tables.now ≡ universe.now }
    requires of_universe { known.now.universe ≡ universe.now }
    requires of_plan { known.now.plan ≡ plan.now.lanes }
    requires keeps { KeepsRows universe.now plan.now.lanes (rows_of known.now) }
    ensures walked { IsWalked universe.now plan.now.lanes (rows_of known.now) result.0 }
    ensures order { IfOk result.1 (λ order. IsOrder universe.now plan.now.lanes order.items) }
    ensures stuck { IfErr result.1 (IsWhyNone universe.now plan.now.lanes) }
{
    join(
        rt,
        move || -> Result<Vec<u64>, Refusal>
            requires sound { IsSound universe.now plan.now.lanes }
            requires tables { tables.now ≡ universe.now }
            requires of_universe { known.now.universe ≡ universe.now }
            requires of_plan { known.now.plan ≡ plan.now.lanes }
            requires keeps { KeepsRows universe.now plan.now.lanes (rows_of known.now) }
            ensures { IsWalked universe.entry.now plan.entry.now.lanes
                (rows_of known.entry.now) result }
        { check_lanes(rt, alloc, universe, tables, plan, known) },
        move || -> Result<Vec<u32>, OrderError>
            requires sound { IsSound universe.now plan.now.lanes }
            requires tables { tables.now ≡ universe.now }
            ensures order { IfOk result
                (λ order. IsOrder universe.entry.now plan.entry.now.lanes order.items) }
            ensures stuck { IfErr result (IsWhyNone universe.entry.now plan.entry.now.lanes) }
        { order(alloc, universe, tables, plan) },
    )
}

/// Finds what the acceptance of a plan rests on, by the rows of its universe and what its lanes
/// know.
fn find_grounds(
    rt: &(impl Threads + Sync),
    alloc: Global,
    universe: &Universe,
    tables: &Tables,
    plan: &Plan,
    known: &Known,
) -> Result<Grounds, Refusal>
    requires sound { IsSound universe.now plan.now.lanes }
    requires tables { tables.now ≡ universe.now }
    requires of_universe { known.now.universe ≡ universe.now }
    requires of_plan { known.now.plan ≡ plan.now.lanes }
    requires greatest { IsGreatest universe.now plan.now.lanes (rows_of known.now) }
    ensures accepted { IfOk result (IsGrounds (record {
      universe = universe.now;
      plan = plan.now.lanes;
      lines = plan.now.lines;
      known = known.now;
    })) }
    ensures refused { IfErr result (λ refusal.
        IsVerdictOn universe.now plan.now.lanes (Err refusal)) }
{
    let (costs, order) = walks_beside_order(rt, alloc, universe, tables, plan, known);
    let costs = costs?;
    match order {
        Ok(order) => Ok(Grounds { order, costs }),
        Err(OrderError::Stuck(lanes)) => Err(stuck_refusal(alloc, plan, &lanes)),
        Err(OrderError::Memory) => Err(Refusal::Memory),
    }
}

impl Examined {
    /// Examines what four texts stand for.
    pub fn of(
        rt: &(impl Threads + Sync),
        alloc: Global,
        planned: Planned,
    ) -> Result<Examined, AllocError>
        requires counted { planned.plan.count ≡ count planned.universe planned.plan.lanes }
        requires sound { IsSound planned.universe planned.plan.lanes }
        ensures universe { IfOk result (λ examined. examined.universe ≡ planned.universe) }
        ensures plan { IfOk result (λ examined. examined.plan ≡ planned.plan.lanes) }
        ensures lines { IfOk result (λ examined. examined.lines ≡ planned.plan.lines) }
    {
        match Tables::build(rt, alloc, &planned.universe) {
            Ok(tables) => Examined::by_tables(rt, alloc, planned, tables),
            Err(error) => Err(error),
        }
    }

    /// Examines what four texts stand for by the rows of their universe.
    pub fn by_tables(
        rt: &(impl Threads + Sync),
        alloc: Global,
        planned: Planned,
        tables: Tables,
    ) -> Result<Examined, AllocError>
        requires counted { planned.plan.count ≡ count planned.universe planned.plan.lanes }
        requires sound { IsSound planned.universe planned.plan.lanes }
        requires tables { tables ≡ planned.universe }
        ensures universe { IfOk result (λ examined. examined.universe ≡ planned.universe) }
        ensures plan { IfOk result (λ examined. examined.plan ≡ planned.plan.lanes) }
        ensures lines { IfOk result (λ examined. examined.lines ≡ planned.plan.lines) }
    {
        match knowledge(rt, alloc, &planned.universe, &tables, &planned.plan) {
            Ok(known) => Ok(Examined {
                planned,
                tables,
                known,
            }),
            Err(error) => Err(error),
        }
    }

    /// The universe of the packages, the sources and the farm.
    pub fn universe(&self) -> &Universe
        ensures { result.now ≡ self.now.universe }
    {
        &self.planned.universe
    }

    /// The plan.
    pub fn plan(&self) -> &Plan
        ensures lanes { result.now.lanes ≡ self.now.plan }
        ensures lines { result.now.lines ≡ self.now.lines }
        ensures counted { result.now.count ≡ count self.now.universe self.now.plan }
    {
        &self.planned.plan
    }

    /// What each lane knows of the archive at each place.
    pub fn known(&self) -> &Known
        ensures { result.now ≡ self.now.known }
    {
        &self.known
    }

    /// What walks over the plan's lanes go by.
    pub fn stage(&self) -> Stage<'_, Known>
        ensures universe { result.universe.now ≡ self.now.universe }
        ensures plan { result.plan.now.lanes ≡ self.now.plan }
        ensures lines { result.plan.now.lines ≡ self.now.lines }
        ensures known { result.known.now ≡ self.now.known }
        ensures stage { IsStage self.now.universe self.now.plan result.tables.now
            result.outputs.now (knowledge_of self.now.known) }
    {
        Stage {
            universe: &self.planned.universe,
            tables: &self.tables,
            plan: &self.planned.plan,
            outputs: self.known.outputs(),
            known: &self.known,
        }
    }

    /// The verdict: what an acceptance rests on, or why the plan is refused.
    ///
    /// # Errors
    ///
    /// As those of [`check`](crate::check) for a plan that can be read.
    pub fn verdict(&self, rt: &(impl Threads + Sync), alloc: Global) -> Result<Grounds, Refusal>
        ensures accepted { IfOk result (IsGrounds self.now) }
        ensures refused { IfErr result (λ refusal.
            IsVerdictOn self.now.universe self.now.plan (Err refusal)) }
    {
        let Planned { universe, plan } = &self.planned;
        find_grounds(rt, alloc, universe, &self.tables, plan, &self.known)
    }

    /// The plan as an accepted one.
    pub fn accept(self, grounds: Grounds) -> Accepted
        requires { IsGrounds self grounds }
        ensures { result ≡ accepted_with self grounds.order.items grounds.costs.items }
    {
        Accepted::new(self, grounds)
    }
}
