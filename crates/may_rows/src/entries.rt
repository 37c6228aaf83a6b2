//! The entries of a variant that may not be met.

ghost use Rattle.std.specs.Prelude.{◌≡◌, ◌<◌, not, length};
ghost use Rattle.farm_model.specs.Common.{unmet, pre_depends, depends, IsKnown};
ghost use Rattle.plan_model.specs.May.{surely_met};
ghost use Rattle.sat_rows.specs.Rows.{nth_entry};
ghost use Rattle.may_rows.specs.Words.{AreWords, may_of};

use crate::numbers::{NumberTest, some_number};
use crate::state::MayHold;
use farm_universe::{Universe, Variant};
use sat_rows::Tables;

/// The Pre-Depends entries of a variant that may not be met.
#[derive(Drop)]
struct MissedPreDepends<'a> {
    tables: &'a Tables,
    state: &'a MayHold,
    variant: Variant,
}

impl NumberTest for MissedPreDepends<'_> {
    ghost fits = { λ u t.
        (t.tables.now ≡ u) × (AreWords u t.state.now × IsKnown u t.variant) };

    ghost count = { λ u t. length (pre_depends u t.variant) };

    ghost test = { λ u t i.
        not (surely_met u (may_of t.state.now) (nth_entry (pre_depends u t.variant) i)) };

    fn passes(&self, universe: &Universe, number: usize) -> bool {
        !self
            .state
            .surely_meets(self.tables.pre_depends(self.variant, number))
    }
}

/// Tells whether some Pre-Depends entry of a variant may not be met.
pub fn misses_pre_depends(
    universe: &Universe,
    tables: &Tables,
    state: &MayHold,
    variant: Variant,
) -> bool
    requires same { tables.now ≡ universe.now }
    requires state { AreWords universe.now state.now }
    requires known { IsKnown universe.now variant }
    ensures { result ≡ unmet (surely_met universe.now (may_of state.now))
        (pre_depends universe.now variant) }
{
    let count = universe.relations(variant).pre_depends.len();
    some_number(
        universe,
        count,
        &MissedPreDepends {
            tables,
            state,
            variant,
        },
    )
}

/// The Depends entries of a variant that may not be met.
#[derive(Drop)]
struct MissedDepends<'a> {
    tables: &'a Tables,
    state: &'a MayHold,
    variant: Variant,
}

impl NumberTest for MissedDepends<'_> {
    ghost fits = { λ u t.
        (t.tables.now ≡ u) × (AreWords u t.state.now × IsKnown u t.variant) };

    ghost count = { λ u t. length (depends u t.variant) };

    ghost test = { λ u t i.
        not (surely_met u (may_of t.state.now) (nth_entry (depends u t.variant) i)) };

    fn passes(&self, universe: &Universe, number: usize) -> bool {
        !self
            .state
            .surely_meets(self.tables.depends(self.variant, number))
    }
}

/// Tells whether some Depends entry of a variant may not be met.
pub fn misses_depends(
    universe: &Universe,
    tables: &Tables,
    state: &MayHold,
    variant: Variant,
) -> bool
    requires same { tables.now ≡ universe.now }
    requires state { AreWords universe.now state.now }
    requires known { IsKnown universe.now variant }
    ensures { result ≡ unmet (surely_met universe.now (may_of state.now))
        (depends universe.now variant) }
{
    let count = universe.relations(variant).depends.len();
    some_number(
        universe,
        count,
        &MissedDepends {
            tables,
            state,
            variant,
        },
    )
}
