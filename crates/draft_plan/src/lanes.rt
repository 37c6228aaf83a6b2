//! The lanes of a plan, as they are looked at.

ghost use Rattle.std.specs.Prelude.{◌≡◌, IfOk};

use crate::LaneParts;
use plan_reader::Plan;
use std::alloc::{AllocError, Global};

/// The parts of a plan's lanes.
pub(crate) fn parts_of<'a>(alloc: Global, plan: &'a Plan) -> Result<Vec<LaneParts<'a>>, AllocError>
    ensures { IfOk result (λ parts. parts.items ≡ plan.now.lanes) }
{
    let mut parts = Vec::new(alloc);
    for number in 0..plan.lanes() {
        let lane = plan.lane(number);
        parts.push(LaneParts {
            name: lane.name(),
            base: lane.base(),
            budget: lane.budget(),
            instructions: lane.instructions(),
        })?;
    }
    Ok(parts)
}
