//! The refusal of a plan whose lanes wait for ever.

ghost use Rattle.std.specs.Prelude.{◌≡◌, ◌<◌, length, map, All, IfOk};
ghost use Rattle.deb_text.specs.Lists.{lists};
ghost use Rattle.plan_model.specs.Plan.{lane};
ghost use Rattle.plan_verifier.specs.Stuck.{IsToldStuck};

use crate::refusal::Refusal;
use plan_reader::Plan;
use std::alloc::{AllocError, Global};

/// The names of lanes.
fn lane_names(alloc: Global, plan: &Plan, lanes: &[u32]) -> Result<Vec<Vec<u8>>, AllocError>
    requires { All (λ l. l < length plan.now.lanes) lanes.now }
    ensures { IfOk result
        (λ names. lists names.items ≡ map (λ l. (lane plan.now.lanes l).name) lanes.now) }
{
    let mut names = Vec::new(alloc);
    for number in lanes {
        names.push(Vec::from_slice(alloc, plan.lane(*number as usize).name())?)?;
    }
    Ok(names)
}

/// The refusal of a plan of which these lanes are stuck.
pub fn stuck_refusal(alloc: Global, plan: &Plan, lanes: &[u32]) -> Refusal
    requires { All (λ l. l < length plan.now.lanes) lanes.now }
    ensures { IsToldStuck plan.now.lanes lanes.now result }
{
    match lane_names(alloc, plan, lanes) {
        Ok(lanes) => Refusal::Stuck { lanes },
        Err(_) => Refusal::Memory,
    }
}
