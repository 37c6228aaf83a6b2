//! What is drawn.

use farm_universe::Universe;
use plan_reader::Plan;
use timeline::TimedPlan;

/// A plan that is drawn.
#[derive(Clone, Copy)]
pub struct DrawnPlan<'a> {
    pub universe: &'a Universe,
    pub plan: &'a Plan,
    /// Its timed run, where it has one.
    pub run: Option<TimedPlan<'a>>,
    /// The names of the lanes that would wait for ever.
    pub stuck: &'a [Vec<u8>],
}
