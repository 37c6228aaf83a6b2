//! What a certificate claims of a plan.

ghost use Rattle.std.specs.Prelude.{◌≡◌};
ghost use Rattle.plan_cert.specs.PlaceRows.{place_rows_of};
ghost use Rattle.plan_cert.specs.Places.{HaveKnown};

use crate::stated_rows::StatedRows;
use farm_universe::Universe;
use plan_reader::Plan;
use sat_rows::Tables;

/// A universe with its rows, a plan over it, and what the plan's lanes know as a certificate states
/// it.
#[derive(Clone, Copy)]
pub struct Claim<'a> {
    pub universe: &'a Universe,
    pub tables: &'a Tables,
    pub plan: &'a Plan,
    pub known: &'a StatedRows,
    ghost tables_are: { tables.now ≡ universe.now },
    ghost of_universe: { known.now.universe ≡ universe.now },
    ghost of_plan: { known.now.plan ≡ plan.now.lanes },
    ghost have_known: { HaveKnown universe.now plan.now.lanes (place_rows_of known.now) },
}
