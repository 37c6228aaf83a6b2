//! The traps of a configure.

ghost use Rattle.std.proofs.Math.Bool.{and-false};
ghost use Rattle.std.specs.Prelude.{◌≡◌, ◌&&◌, ◌==◌, not};
ghost use Rattle.std.specs.List.{list_any};
ghost use Rattle.chroot_state.specs.Slots.{AreSlots};
ghost use Rattle.farm_model.specs.Chroot as chroots;
ghost use Rattle.farm_model.specs.Packages as packages;
ghost use Rattle.farm_model.specs.Common.{variant, IsKnown, first_trap};
ghost use Rattle.farm_model.specs.Traps as traps;

use crate::held::Slots;
use crate::members::some_member;
use crate::met::{misses, misses_with};
use crate::slots::{SlotTest, holds, is_unpacked, slot_at, some_slot};
use farm_universe::relations::{BreakersOf, VariantTest};
use farm_universe::{Slot, Trap, Universe, Variant};

/// The variants with a Pre-Depends entry that is not met.
#[derive(Drop)]
struct MissesPreDepends<'a> {
    slots: &'a Slots,
}

impl VariantTest for MissesPreDepends<'_> {
    ghost fits = { λ u t. AreSlots u t.slots.now };

    ghost test = { λ u t v.
        chroots.unmet (chroots.meets_entry u t.slots.now) (packages.pre_depends u v) };

    fn passes(&self, universe: &Universe, variant: Variant) -> bool {
        let pre_depends = &universe.relations(variant).pre_depends;
        misses(universe, self.slots, pre_depends)
    }
}

/// The variants with a Depends entry that is not met where members count too.
#[derive(Drop)]
struct MissesDepends<'a> {
    members: &'a [u32],
    slots: &'a Slots,
}

impl VariantTest for MissesDepends<'_> {
    ghost fits = { λ u t. AreSlots u t.slots.now };

    ghost test = { λ u t v.
        chroots.unmet (chroots.met_with u t.members.now t.slots.now) (packages.depends u v) };

    fn passes(&self, universe: &Universe, variant: Variant) -> bool {
        let depends = &universe.relations(variant).depends;
        misses_with(universe, self.members, self.slots, depends)
    }
}

/// Present variants of other names that break this one.
#[derive(Drop)]
struct HoldsBreaking {
    variant: Variant,
}

impl SlotTest for HoldsBreaking {
    ghost fits = { λ u t. IsKnown u t.variant };

    ghost test = { λ u t n s. not (n == t.variant.name)
        && chroots.holds (λ b. packages.breaks u (variant n b) t.variant) s };

    fn passes(&self, universe: &Universe, name: u32, slot: Slot) -> bool {
        let test = BreakersOf {
            variant: self.variant,
        };
        name != self.variant.name && holds(universe, name, slot, &test)
    }

    ghost absent = { λ _ _ _. and-false _ };
}

/// The variants that a present one of another name breaks.
#[derive(Drop)]
struct IsBroken<'a> {
    slots: &'a Slots,
}

impl VariantTest for IsBroken<'_> {
    ghost fits = { λ u t. AreSlots u t.slots.now };

    ghost test = { λ u t v. chroots.some_slot t.slots.now (λ n s. not (n == v.name)
        && chroots.holds (λ b. packages.breaks u (variant n b) v) s) };

    fn passes(&self, universe: &Universe, variant: Variant) -> bool {
        some_slot(universe, self.slots, &HoldsBreaking { variant })
    }
}

/// Tells whether some member is not unpacked.
fn some_not_unpacked(members: &[u32], slots: &Slots) -> bool
    ensures { result
        ≡ list_any (λ m. not (chroots.is_unpacked (chroots.slot slots.now m))) members.now }
{
    members
        .iter()
        .any(|member| !is_unpacked(slot_at(slots, *member)))
}

/// The first trap of a configure of members.
#[tactic(auto, unfolding(farm_model::specs::Traps::first_trap))]
pub fn configure_trap(universe: &Universe, slots: &Slots, members: &[u32]) -> Option<Trap>
    requires { AreSlots universe.now slots.now }
    ensures { result ≡ first_trap (traps.configure_traps universe.now slots.now members.now) }
{
    if some_not_unpacked(members, slots) {
        return Some(Trap::WrongState); // X6
    }
    if some_member(universe, members, slots, &MissesPreDepends { slots }) {
        return Some(Trap::PreDepends); // X2
    }
    if some_member(universe, members, slots, &MissesDepends { members, slots }) {
        return Some(Trap::Depends); // X7
    }
    if some_member(universe, members, slots, &IsBroken { slots }) {
        return Some(Trap::Broken); // X8
    }
    None
}
