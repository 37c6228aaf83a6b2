//! The disk space that is taken, in KiB.

ghost use Rattle.std.specs.Prelude.{◌≡◌, ◌+◌, ◌≤◌, nat_lt};
ghost use Rattle.chroot_state.specs.Slots.{IsKnownSlot, AreSlots};
ghost use Rattle.farm_model.specs.Chroot as chroots;
ghost use Rattle.farm_universe.specs.Kept.{IsKept};

use crate::held::Slots;
use crate::slots::slot_at;
use farm_universe::limits::MOST_SIZE;
use farm_universe::{Slot, Universe, Variant};

/// The size of what is held of a name.
#[tactic(auto, using(farm_universe::proofs::SizeLaws::size_small))]
pub fn size_in(universe: &Universe, name: u32, slot: Slot) -> u64
    requires known { IsKnownSlot universe.now name slot }
    requires kept { IsKept universe.now }
    ensures size { result ≡ chroots.size_in universe.now name slot }
    ensures small { result ≤ MOST_SIZE }
{
    match slot {
        Slot::Absent => 0,
        Slot::Unpacked { bit, last: _ } => universe.size(Variant { name, bit }),
        Slot::Configured { bit } => universe.size(Variant { name, bit }),
    }
}

/// The disk space that a chroot takes.
#[tactic(auto, unfolding(farm_model::specs::Chroot::used))]
pub fn space(universe: &Universe, slots: &Slots) -> u64
    requires { AreSlots universe.now slots.now }
    ensures { result ≡ chroots.used universe.now slots.now }
{
    let count = universe.names();
    let mut used = 0;
    for name in 0..count {
        used += size_in(universe, name, slot_at(slots, name));
    }
    used
}

/// Tells whether there is no room for so much more.
pub fn overflows(room: u64, used: u64, more: u64) -> bool
    ensures { result ≡ nat_lt room (used + more) }
{
    room < used || room - used < more
}
