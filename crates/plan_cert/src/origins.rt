//! Where what is in an archive may come from: the initial archive, and the publishes of each lane.

ghost use Rattle.std.specs.Prelude.{◌<◌, length, IfOk};
ghost use Rattle.farm_model.specs.Sound.{IsUniverse};
ghost use Rattle.plan_cert.specs.Origins.{AreLanePublishes, ArePublishes, AreOrigins};

use bit_rows::Row;
use farm_universe::Universe;
use known_rows::initial_row;
use plan_reader::Plan;
use std::alloc::{AllocError, Global};

/// The places of a lane at which it publishes, in order.
#[derive(Drop)]
pub struct LanePublishes {
    pub places: Vec<usize>,
}

/// The initial archive, and the publishes of each lane.
#[derive(Drop)]
pub struct Origins {
    pub archive: Row,
    pub publishes: Vec<LanePublishes>,
}

fn lane_publishes(alloc: Global, plan: &Plan, number: usize) -> Result<LanePublishes, AllocError>
    requires { number < length plan.now.lanes }
    ensures { IfOk result (λ of. AreLanePublishes plan.now.lanes number of.places.items) }
{
    let instructions = plan.lane(number).instructions();
    let mut places = Vec::new(alloc);
    for place in 0..instructions.len() {
        if let Some(_recipe) = instructions[place].published() {
            places.push(place)?;
        }
    }
    Ok(LanePublishes { places })
}

fn all_publishes(alloc: Global, plan: &Plan) -> Result<Vec<LanePublishes>, AllocError>
    ensures { IfOk result (λ lanes. ArePublishes plan.now.lanes lanes.items) }
{
    let mut lanes = Vec::new(alloc);
    for number in 0..plan.lanes() {
        lanes.push(lane_publishes(alloc, plan, number)?)?;
    }
    Ok(lanes)
}

/// Lists the origins of a plan, so that the facts of each wait go over its publishes alone.
pub fn find_origins(alloc: Global, universe: &Universe, plan: &Plan) -> Result<Origins, AllocError>
    requires { IsUniverse universe.now }
    ensures { IfOk result (AreOrigins universe.now plan.now.lanes) }
{
    Ok(Origins {
        archive: initial_row(alloc, universe)?,
        publishes: all_publishes(alloc, plan)?,
    })
}
