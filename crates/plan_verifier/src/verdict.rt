//! The verdict on four texts.

ghost use Rattle.std.specs.Prelude.{◌≡◌, IfOk};
ghost use Rattle.plan_model.specs.Common.{IsSafe, count, IsSound};
ghost use Rattle.plan_verifier.specs.Accepted.{StaysForeseen};
ghost use Rattle.plan_reader.specs.Planned.{planned_of};
ghost use Rattle.plan_verifier.specs.Verdict.{IsVerdict, IsVerdictOn};

use crate::accepted::Accepted;
use crate::examined::Examined;
use crate::ready::{Ready, read_ready};
use crate::refusal::Refusal;
use plan_reader::Planned;
use sat_rows::Tables;
use std::alloc::Global;
use std::thread::Threads;

/// The verdict on an examined plan.
fn conclude(
    rt: &(impl Threads + Sync),
    alloc: Global,
    examined: Examined,
) -> Result<Accepted, Refusal>
    ensures { IsVerdictOn examined.universe examined.plan result }
{
    match examined.verdict(rt, alloc) {
        Ok(grounds) => Ok(examined.accept(grounds)),
        Err(refusal) => Err(refusal),
    }
}

/// Judges a plan over a universe with its rows.
fn judge(rt: &(impl Threads + Sync), alloc: Global, ready: Ready) -> Result<Accepted, Refusal>
    requires counted { ready.planned.plan.count
        ≡ count ready.planned.universe ready.planned.plan.lanes }
    requires sound { IsSound ready.planned.universe ready.planned.plan.lanes }
    requires tables { IfOk ready.tables (λ tables. tables ≡ ready.planned.universe) }
    ensures { IsVerdictOn ready.planned.universe ready.planned.plan.lanes result }
{
    let Ready { planned, tables } = ready;
    match tables {
        Ok(tables) => judge_by(rt, alloc, planned, tables),
        Err(_) => Err(Refusal::Memory),
    }
}

/// Judges a plan over a universe by the rows of the universe.
fn judge_by(
    rt: &(impl Threads + Sync),
    alloc: Global,
    planned: Planned,
    tables: Tables,
) -> Result<Accepted, Refusal>
    requires counted { planned.plan.count ≡ count planned.universe planned.plan.lanes }
    requires sound { IsSound planned.universe planned.plan.lanes }
    requires tables { tables ≡ planned.universe }
    ensures { IsVerdictOn planned.universe planned.plan.lanes result }
{
    match Examined::by_tables(rt, alloc, planned, tables) {
        Ok(examined) => conclude(rt, alloc, examined),
        Err(_) => Err(Refusal::Memory),
    }
}

/// Checks the plan of a farm before anything is built: the packages index, the sources index, the
/// farm's description, and the plan.
///
/// Where it accepts them, no interleaving of the plan's lanes meets a trap, in every unfinished
/// state some lane can step, and no run is longer than the plan's count of events. In each state
/// that a run reaches, the archive has what the lanes know, and each lane has spent at most its
/// cost, which is within its budget.
///
/// # Errors
///
/// The first cause of these, and nothing is left behind. [`Refusal::Text`] with the first fault of
/// the packages, the sources, the farm or the plan. [`Refusal::Unsafe`] with the first instruction,
/// of the first lane that has one, that may meet a trap, and with the first such trap.
/// [`Refusal::Uneven`] with the `when` whose branches leave some name in different phases, where
/// their `end` comes before any such instruction.
/// [`Refusal::Stuck`] with the lanes that no order of waits and outputs brings past their last one.
/// [`Refusal::Memory`] where memory ran out.
pub fn check(
    rt: &(impl Threads + Sync),
    alloc: Global,
    packages: &[u8],
    sources: &[u8],
    farm: &[u8],
    plan: &[u8],
) -> Result<Accepted, Refusal>
    ensures safe { IfOk result (λ accepted. IsSafe accepted.universe accepted.plan) }
    ensures foreseen { IfOk result StaysForeseen }
    ensures verdict { IsVerdict (planned_of packages.now sources.now farm.now plan.now) result }
{
    let ready = read_ready(rt, alloc, packages, sources, farm, plan)?;
    let accepted = judge(rt, alloc, ready)?;
    accepted.every_interleaving();
    accepted.every_state();
    Ok(accepted)
}
