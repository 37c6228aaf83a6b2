//! A test of the members of a set.

ghost use Rattle.std.specs.Prelude.{◌≡◌};
ghost use Rattle.chroot_state.specs.Slots.{AreSlots};
ghost use Rattle.farm_model.specs.Traps as traps;

use crate::held::Slots;
use crate::slots::{holds, slot_at};
use farm_universe::Universe;
use farm_universe::relations::VariantTest;

/// Tells whether the present variant of some member passes.
pub fn some_member<T: VariantTest>(
    universe: &Universe,
    members: &[u32],
    slots: &Slots,
    test: &T,
) -> bool
    requires fits { T.fits universe.now test.now }
    requires slots { AreSlots universe.now slots.now }
    ensures { result
        ≡ traps.some_member members.now slots.now (T.test universe.now test.now) }
{
    for member in members {
        if holds(universe, *member, slot_at(slots, *member), test) {
            return true;
        }
    }
    false
}
