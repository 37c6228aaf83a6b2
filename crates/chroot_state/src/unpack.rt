//! The traps of an unpack.

ghost use Rattle.std.proofs.Math.Bool.{and-false};
ghost use Rattle.std.specs.Prelude.{◌≡◌, ◌&&◌, ◌==◌, not};
ghost use Rattle.chroot_state.specs.Slots.{AreSlots};
ghost use Rattle.farm_model.specs.Chroot as chroots;
ghost use Rattle.farm_model.specs.Packages as packages;
ghost use Rattle.farm_model.specs.Common.{variant, IsKnown, first_trap, unpack_traps};

use crate::held::Slots;
use crate::met::misses_ahead;
use crate::slots::{SlotTest, holds, holds_configured, some_slot};
use crate::space::overflows;
use farm_universe::relations::{ConflictsWith, IsBrokenBy};
use farm_universe::{Slot, Trap, Universe, Variant};

/// Present variants of other names in conflict with this one.
#[derive(Drop)]
struct HoldsConflicting {
    variant: Variant,
}

impl SlotTest for HoldsConflicting {
    ghost fits = { λ u t. IsKnown u t.variant };

    ghost test = { λ u t n s. not (n == t.variant.name)
        && chroots.holds (λ b. packages.conflict u t.variant (variant n b)) s };

    fn passes(&self, universe: &Universe, name: u32, slot: Slot) -> bool {
        let test = ConflictsWith {
            variant: self.variant,
        };
        name != self.variant.name && holds(universe, name, slot, &test)
    }

    ghost absent = { λ _ _ _. and-false _ };
}

/// Configured variants of other names that this one breaks.
#[derive(Drop)]
struct HoldsBroken {
    variant: Variant,
}

impl SlotTest for HoldsBroken {
    ghost fits = { λ u t. IsKnown u t.variant };

    ghost test = { λ u t n s. not (n == t.variant.name)
        && chroots.holds_configured (λ b. packages.breaks u t.variant (variant n b)) s };

    fn passes(&self, universe: &Universe, name: u32, slot: Slot) -> bool {
        let test = IsBrokenBy {
            variant: self.variant,
        };
        name != self.variant.name && holds_configured(universe, name, slot, &test)
    }

    ghost absent = { λ _ _ _. and-false _ };
}

/// The first trap of an unpack, where so much of the room is taken.
#[tactic(auto, unfolding(farm_model::specs::Traps::first_trap))]
pub fn unpack_trap(
    universe: &Universe,
    room: u64,
    used: u64,
    slots: &Slots,
    variant: Variant,
) -> Option<Trap>
    requires slots { AreSlots universe.now slots.now }
    requires used { used ≡ chroots.used universe.now slots.now }
    requires known { IsKnown universe.now variant }
    ensures { result ≡ first_trap (unpack_traps universe.now room slots.now variant) }
{
    let pre_depends = &universe.relations(variant).pre_depends;
    if misses_ahead(universe, variant.name, slots, pre_depends) {
        return Some(Trap::PreDepends); // X2
    }
    if some_slot(universe, slots, &HoldsConflicting { variant }) {
        return Some(Trap::Conflict); // X3
    }
    if some_slot(universe, slots, &HoldsBroken { variant }) {
        return Some(Trap::BreaksOther); // X4
    }
    if overflows(room, used, universe.size(variant)) {
        return Some(Trap::Full); // X5
    }
    None
}
