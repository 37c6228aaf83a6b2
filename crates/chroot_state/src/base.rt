//! What a base chroot holds.

ghost use Rattle.std.specs.Prelude.{◌≡◌, ◌<◌, ◌^◌, IfOk, length};
ghost use Rattle.chroot_state.specs.Slots.{AreSlots};
ghost use Rattle.farm_model.specs.Chroot.{base_chroot};

use farm_universe::{Slot, Universe};
use std::alloc::{AllocError, Global};

/// What a base chroot holds of each name. It goes through its packages from the last, so that the
/// first of a name stands.
pub fn base_slots(alloc: Global, universe: &Universe, number: u32) -> Result<Vec<Slot>, AllocError>
    requires { number < length universe.now.bases }
    ensures based { IfOk result (λ slots. slots.items ≡ base_chroot universe.now number) }
    ensures known { IfOk result (λ slots. AreSlots universe.now slots.items) }
    ensures small { IfOk result (λ slots. length slots.items < 2 ^ 32) }
{
    let count = universe.names();
    let mut slots = vec![in alloc; Slot::Absent; count as usize]?;
    let packages = universe.base(number).packages();
    for i in (0..packages.len()).rev() {
        let variant = packages[i];
        slots[variant.name as usize] = Slot::Configured { bit: variant.bit };
    }
    Ok(slots)
}
