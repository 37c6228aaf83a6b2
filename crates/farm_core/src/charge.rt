//! What a lane may still spend.

ghost use Rattle.std.specs.Prelude.{◌≡◌, ◌<◌, ◌+◌, ◌^◌, false};
ghost use Rattle.farm_core.specs.Lanes.{shown};
ghost use Rattle.plan_model.specs.Common.{size_cost, over_budget};

use crate::lane::LaneRun;
use plan_reader::Lane;

/// An unpack of so many KiB costs 1 and one more for each whole MiB.
pub fn size_cost(kib: u64) -> u64
    ensures { result ≡ size_cost kib }
{
    1 + kib / 1024
}

impl LaneRun {
    /// Tells whether the lane would spend more than its budget with this cost.
    pub fn is_over(&self, lane: &Lane, cost: u64) -> bool
        ensures over { result ≡ over_budget lane.now (shown self.now) cost }
        ensures fits { result ≡ false → self.now.spent + cost < 2 ^ 64 }
    {
        lane.budget() < self.spent || lane.budget() - self.spent < cost
    }
}
