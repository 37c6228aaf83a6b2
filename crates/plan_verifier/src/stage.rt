//! What the walks over the lanes of a plan go by.

use farm_universe::Universe;
use known_rows::Outputs;
use plan_reader::Plan;
use sat_rows::Tables;

/// A universe with its rows, a plan over it with its outputs, and what the plan's lanes know.
#[derive(Drop)]
pub struct Stage<'a, K> {
    pub universe: &'a Universe,
    pub tables: &'a Tables,
    pub plan: &'a Plan,
    pub outputs: &'a Outputs,
    pub known: &'a K,
}
