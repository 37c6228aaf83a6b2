//! Tests of what a name may hold, and of what the members of a set may hold.

ghost use Rattle.std.specs.Prelude.{◌≡◌};
ghost use Rattle.farm_model.specs.Packages.{variant};
ghost use Rattle.plan_model.specs.May as may;
ghost use Rattle.plan_model.specs.Risk as risks;
ghost use Rattle.may_rows.specs.Words.{AreWords, may_of};

use crate::sets::some_of;
use crate::state::MayHold;
use farm_universe::Universe;
use farm_universe::relations::VariantTest;

/// Tells whether some variant that a name may hold passes.
pub fn may_hold<T: VariantTest>(universe: &Universe, state: &MayHold, name: u32, test: &T) -> bool
    requires fits { T.fits universe.now test.now }
    requires words { AreWords universe.now state.now }
    ensures { result ≡ may.may_hold universe.now name
        (λ b. T.test universe.now test.now (variant name b)) ((may_of state.now).slots name) }
{
    some_of(universe, name, state.here_word(name), test)
}

/// Tells whether some configured variant that a name may hold passes.
pub fn may_hold_configured<T: VariantTest>(
    universe: &Universe,
    state: &MayHold,
    name: u32,
    test: &T,
) -> bool
    requires fits { T.fits universe.now test.now }
    requires words { AreWords universe.now state.now }
    ensures { result ≡ may.may_hold_configured universe.now name
        (λ b. T.test universe.now test.now (variant name b)) ((may_of state.now).slots name) }
{
    some_of(universe, name, state.ready_word(name), test)
}

/// Tells whether some variant that a member may hold passes.
pub fn some_may_member<T: VariantTest>(
    universe: &Universe,
    members: &[u32],
    state: &MayHold,
    test: &T,
) -> bool
    requires fits { T.fits universe.now test.now }
    requires words { AreWords universe.now state.now }
    ensures { result ≡ risks.some_may_member universe.now members.now (may_of state.now)
        (T.test universe.now test.now) }
{
    for member in members {
        if may_hold(universe, state, *member, test) {
            return true;
        }
    }
    false
}
