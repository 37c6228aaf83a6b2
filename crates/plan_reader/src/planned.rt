//! Four texts read as the universe and the plan of a farm.

ghost use Rattle.std.specs.Prelude.{◌≡◌, IfOk};
ghost use Rattle.deb_text.specs.Answers.{Gives, refusal_of};
ghost use Rattle.plan_reader.specs.PlanLines.{lines_of};
ghost use Rattle.plan_model.specs.Common.{count, IsSound};
ghost use Rattle.plan_reader.specs.Planned.{planned_of};

use crate::{Plan, assemble};
use deb_text::Fault;
use farm_universe::Universe;
use std::alloc::Global;

/// What four texts stand for.
#[derive(Drop)]
pub struct Planned {
    pub universe: Universe,
    pub plan: Plan,
}

/// Reads the packages, the sources and the farm as a universe, and then the plan.
///
/// # Errors
///
/// The first fault of the texts, in this order, with its file and its line; 900 where memory is
/// refused.
#[tactic(auto, unfolding(crate::specs::Planned::planned_of))]
pub fn read_texts(
    alloc: Global,
    packages: &[u8],
    sources: &[u8],
    farm: &[u8],
    plan: &[u8],
) -> Result<Planned, Fault>
    ensures read { Gives refusal_of
        (λ planned. record { universe = planned.universe; plan = planned.plan.lanes }) result
        (planned_of packages.now sources.now farm.now plan.now) }
    ensures counted { IfOk result
        (λ planned. planned.plan.count ≡ count planned.universe planned.plan.lanes) }
    ensures sound { IfOk result (λ planned. IsSound planned.universe planned.plan.lanes) }
    ensures lines { IfOk result (λ planned. planned.plan.lines ≡ lines_of plan.now) }
{
    let universe = Universe::read(alloc, packages, sources, farm)?;
    let _names = universe.names();
    let plan = assemble(alloc, &universe, plan)?;
    Ok(Planned { universe, plan })
}
