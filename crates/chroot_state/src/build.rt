//! The traps of a build.

ghost use Rattle.std.specs.Prelude.{◌≡◌, ◌||◌, refl};
ghost use Rattle.chroot_state.specs.Slots.{AreSlots};
ghost use Rattle.farm_model.specs.Chroot as chroots;
ghost use Rattle.farm_model.specs.Common.{variant, satisfies_any, first_trap, build_traps};

use crate::held::Slots;
use crate::met::misses;
use crate::slots::{SlotTest, holds, is_unpacked, some_slot};
use crate::space::overflows;
use deb_relation::Relations;
use farm_universe::relations::{VariantTest, satisfies_any};
use farm_universe::{Recipe, Slot, Trap, Universe, Variant};

/// The variants with a Depends or Pre-Depends entry that is not met.
#[derive(Drop)]
struct MissesEntries<'a> {
    slots: &'a Slots,
}

impl VariantTest for MissesEntries<'_> {
    ghost fits = { λ u t. AreSlots u t.slots.now };

    ghost test = { λ u t v.
        chroots.unmet (chroots.meets_entry u t.slots.now) (chroots.entries u v) };

    fn passes(&self, universe: &Universe, variant: Variant) -> bool {
        let relations = universe.relations(variant);
        misses(universe, self.slots, &relations.depends)
            || misses(universe, self.slots, &relations.pre_depends)
    }
}

/// What is present and not configured, or misses an entry.
#[derive(Drop)]
struct IsUnsettled<'a> {
    slots: &'a Slots,
}

impl SlotTest for IsUnsettled<'_> {
    ghost fits = { λ u t. AreSlots u t.slots.now };

    ghost test = { λ u t n s. chroots.is_unpacked s
        || chroots.holds (λ b. chroots.unmet (chroots.meets_entry u t.slots.now)
        (chroots.entries u (variant n b))) s };

    fn passes(&self, universe: &Universe, name: u32, slot: Slot) -> bool {
        is_unpacked(slot) || holds(universe, name, slot, &MissesEntries { slots: self.slots })
    }

    ghost absent = { λ _ _ _. refl };
}

/// Tells whether something present is not configured, or misses an entry.
#[tactic(auto, unfolding(farm_model::specs::Chroot::unsettled))]
fn is_unsettled(universe: &Universe, slots: &Slots) -> bool
    requires { AreSlots universe.now slots.now }
    ensures { result ≡ chroots.unsettled universe.now slots.now }
{
    some_slot(universe, slots, &IsUnsettled { slots })
}

/// The variants that satisfy an entry of a field.
#[derive(Drop)]
struct SatisfiesAny<'a> {
    entries: &'a Relations,
}

impl VariantTest for SatisfiesAny<'_> {
    ghost test = { λ u t v. satisfies_any u t.entries.now v };

    fn passes(&self, universe: &Universe, variant: Variant) -> bool {
        satisfies_any(universe, self.entries, variant)
    }
}

/// What is present and satisfies an entry of a field.
#[derive(Drop)]
struct Clashes<'a> {
    clashes: &'a Relations,
}

impl SlotTest for Clashes<'_> {
    ghost test = { λ u t n s.
        chroots.holds (λ b. satisfies_any u t.clashes.now (variant n b)) s };

    fn passes(&self, universe: &Universe, name: u32, slot: Slot) -> bool {
        let test = SatisfiesAny {
            entries: self.clashes,
        };
        holds(universe, name, slot, &test)
    }

    ghost absent = { λ _ _ _. refl };
}

/// The first trap of a build by a recipe, where so much of the room is taken.
#[tactic(auto, unfolding(farm_model::specs::Traps::first_trap))]
pub fn build_trap(
    universe: &Universe,
    room: u64,
    used: u64,
    slots: &Slots,
    recipe: &Recipe,
) -> Option<Trap>
    requires slots { AreSlots universe.now slots.now }
    requires used { used ≡ chroots.used universe.now slots.now }
    ensures { result ≡ first_trap (build_traps universe.now room slots.now recipe.now) }
{
    if is_unsettled(universe, slots) {
        return Some(Trap::Unsettled); // X10
    }
    if misses(universe, slots, recipe.needs()) {
        return Some(Trap::BuildDepends); // X11
    }
    let clashes = recipe.clashes();
    if some_slot(universe, slots, &Clashes { clashes }) {
        return Some(Trap::BuildConflict); // X12
    }
    if overflows(room, used, recipe.scratch()) {
        return Some(Trap::Full); // X5
    }
    None
}
