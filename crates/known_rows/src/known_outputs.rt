//! The outputs of the lanes of a plan, with the universe that they are of.

ghost use Rattle.farm_model.specs.Sound.{IsUniverse};
ghost use Rattle.known_rows.specs.ByName.{AreKnownLanes};

use crate::marks::LaneOutputs;
use farm_universe::Universe;

/// The outputs of each lane, all of them variants of the universe.
#[derive(Clone, Copy)]
pub struct KnownOutputs<'a> {
    pub universe: &'a Universe,
    pub lanes: &'a [LaneOutputs],
    ghost sound: { IsUniverse universe.now },
    ghost known: { AreKnownLanes universe.now lanes.now },
}
