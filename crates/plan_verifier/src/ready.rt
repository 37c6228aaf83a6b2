//! What a verdict goes by, read of four texts by several threads.

ghost use Rattle.std.specs.Prelude.{◌≡◌, IfErr, IfOk};
ghost use Rattle.deb_text.specs.Answers.{Gives, refusal_of};
ghost use Rattle.farm_model.specs.Sound.{IsUniverse};
ghost use Rattle.plan_reader.specs.Planned.{planned_of};
ghost use Rattle.farm_universe.specs.Before.{Leaves, before_plan, refused_for};
ghost use Rattle.plan_reader.specs.PlanLines.{lines_of};
ghost use Rattle.plan_reader.specs.PlanText.{plan_of};
ghost use Rattle.plan_model.specs.Common.{count, IsPlan, IsSound};

use deb_text::Fault;
use farm_universe::{Refused, Universe};
use plan_reader::{Plan, Planned, assemble_side_by_side};
use sat_rows::Tables;
use std::alloc::{AllocError, Global};
use std::thread::{Threads, join};

/// What four texts stand for, and the rows of its universe, or that memory ran out for them.
#[derive(Drop)]
pub struct Ready {
    pub planned: Planned,
    pub tables: Result<Tables, AllocError>,
}

/// Reads the plan over a universe, and makes the rows of the universe beside it: neither asks for
/// the other.
fn plan_beside_tables(
    rt: &(impl Threads + Sync),
    alloc: Global,
    universe: &Universe,
    plan: &[u8],
) -> (Result<Plan, Fault>, Result<Tables, AllocError>)
    ensures read { Gives refusal_of (λ p. p.lanes) result.0 (plan_of universe.now plan.now) }
    ensures counted { IfOk result.0 (λ p. p.count ≡ count universe.now p.lanes) }
    ensures sound { IfOk result.0 (λ p. IsUniverse universe.now → IsPlan universe.now p.lanes) }
    ensures lines { IfOk result.0 (λ p. p.lines ≡ lines_of plan.now) }
    ensures tables { IfOk result.1 (λ tables. tables ≡ universe.now) }
{
    join(
        rt,
        move || -> Result<Plan, Fault>
            ensures read { Gives refusal_of (λ p. p.lanes) result
                (plan_of universe.entry.now plan.entry.now) }
            ensures counted { IfOk result (λ p. p.count ≡ count universe.entry.now p.lanes) }
            ensures sound { IfOk result
                (λ p. IsUniverse universe.entry.now → IsPlan universe.entry.now p.lanes) }
            ensures lines { IfOk result (λ p. p.lines ≡ lines_of plan.entry.now) }
        { assemble_side_by_side(rt, alloc, universe, plan) },
        || Tables::build(rt, alloc, universe),
    )
}

/// Reads four texts as [`read_texts`](plan_reader::read_texts) does, and makes the rows of their
/// universe, by several threads.
///
/// # Errors
///
/// The first fault of the texts, in this order, with its file and its line; 900 where memory is
/// refused. [`Refused::before`] has the farm where its plan is refused, and else what
/// [`Universe::read`] tells of it.
#[tactic(auto, unfolding(plan_reader::specs::Planned::planned_of))]
pub fn read_ready(
    rt: &(impl Threads + Sync),
    alloc: Global,
    packages: &[u8],
    sources: &[u8],
    farm: &[u8],
    plan: &[u8],
) -> Result<Ready, Refused>
    ensures read { Gives refused_for (λ ready. record {
      universe = ready.planned.universe;
      plan = ready.planned.plan.lanes;
    }) result (planned_of packages.now sources.now farm.now plan.now) }
    ensures counted { IfOk result
        (λ ready. ready.planned.plan.count
        ≡ count ready.planned.universe ready.planned.plan.lanes) }
    ensures sound { IfOk result
        (λ ready. IsSound ready.planned.universe ready.planned.plan.lanes) }
    ensures lines { IfOk result (λ ready. ready.planned.plan.lines ≡ lines_of plan.now) }
    ensures tables { IfOk result
        (λ ready. IfOk ready.tables (λ tables. tables ≡ ready.planned.universe)) }
    ensures before { IfErr result
        (λ refused. Leaves refused (before_plan packages.now sources.now farm.now)) }
{
    let universe = Universe::read_side_by_side(rt, alloc, packages, sources, farm)?;
    let _names = universe.names();
    let (plan, tables) = plan_beside_tables(rt, alloc, &universe, plan);
    match plan {
        Ok(plan) => {
            let planned = Planned { universe, plan };
            Ok(Ready { planned, tables })
        }
        Err(fault) => Err(Refused {
            fault,
            before: Some(universe),
        }),
    }
}
