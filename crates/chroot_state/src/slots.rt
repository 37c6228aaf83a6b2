//! What a chroot holds of each name, and tests of it.

ghost use Rattle.std.specs.Prelude.{◌≡◌, ℕ, Bool, true, false};
ghost use Rattle.std.specs.List.{list_any};
ghost use Rattle.chroot_state.specs.Slots.{IsKnownSlot, AreSlots, bit_of, phase_of};
ghost use Rattle.farm_model.specs.Common.{variant, Universe};
ghost use Rattle.farm_model.specs.declared.types.Slot.{Slot};
ghost use Rattle.farm_model.specs.declared.types.Slot.TheVariants.{Absent};
ghost use Rattle.farm_model.specs.Chroot as chroots;

use crate::held::Slots;
use crate::phase::Phase;
use deb_relation::Entry;
use farm_universe::relations::VariantTest;
use farm_universe::{Slot, Universe, Variant};

/// What is held of a name: nothing where there is no such name.
pub fn slot_at(slots: &Slots, name: u32) -> Slot
    ensures { result ≡ chroots.slot slots.now name }
{
    slots.at(name)
}

/// Tells whether a variant is there and unpacked alone.
pub fn is_unpacked(slot: Slot) -> bool
    ensures { result ≡ chroots.is_unpacked slot }
{
    matches!(slot, Slot::Unpacked { .. })
}

/// Tells whether a variant is there and configured.
pub fn is_configured(slot: Slot) -> bool
    ensures { result ≡ chroots.is_configured slot }
{
    matches!(slot, Slot::Configured { .. })
}

/// The bit of the present variant.
pub fn bit_of(slot: Slot) -> Option<u32>
    ensures { result ≡ bit_of slot }
{
    match slot {
        Slot::Absent => None,
        Slot::Unpacked { bit, last: _ } => Some(bit),
        Slot::Configured { bit } => Some(bit),
    }
}

/// The bit of the variant that was configured last.
pub fn last_of(slot: Slot) -> Option<u32>
    ensures { result ≡ chroots.last_of slot }
{
    match slot {
        Slot::Absent => None,
        Slot::Unpacked { bit: _, last } => last,
        Slot::Configured { bit } => Some(bit),
    }
}

/// What state of installation a name is in.
pub fn phase_of(slot: Slot) -> Phase
    ensures { result ≡ phase_of slot }
{
    match slot {
        Slot::Absent => Phase::Absent,
        Slot::Unpacked { .. } => Phase::Unpacked,
        Slot::Configured { .. } => Phase::Configured,
    }
}

/// Tells whether a present variant passes.
pub fn holds<T: VariantTest>(universe: &Universe, name: u32, slot: Slot, test: &T) -> bool
    requires fits { T.fits universe.now test.now }
    requires known { IsKnownSlot universe.now name slot }
    ensures { result
        ≡ chroots.holds (λ b. T.test universe.now test.now (variant name b)) slot }
{
    match slot {
        Slot::Absent => false,
        Slot::Unpacked { bit, last: _ } => test.passes(universe, Variant { name, bit }),
        Slot::Configured { bit } => test.passes(universe, Variant { name, bit }),
    }
}

/// Tells whether a configured variant passes.
pub fn holds_configured<T: VariantTest>(
    universe: &Universe,
    name: u32,
    slot: Slot,
    test: &T,
) -> bool
    requires fits { T.fits universe.now test.now }
    requires known { IsKnownSlot universe.now name slot }
    ensures { result
        ≡ chroots.holds_configured (λ b. T.test universe.now test.now (variant name b)) slot }
{
    match slot {
        Slot::Absent => false,
        Slot::Unpacked { .. } => false,
        Slot::Configured { bit } => test.passes(universe, Variant { name, bit }),
    }
}

/// A test of what a chroot holds of a name.
pub trait SlotTest {
    ghost fits: { Universe → Self → Type 0 } = { λ _ _. Unit {0} };

    ghost test: { Universe → Self → ℕ → Slot → Bool };

    fn passes(&self, universe: &Universe, name: u32, slot: Slot) -> bool
        requires fits { fits universe.now self.now }
        requires known { IsKnownSlot universe.now name slot }
        ensures { result ≡ test universe.now self.now name slot };

    ghost absent: { (u : Universe) (t : Self) (n : ℕ) → test u t n Absent ≡ false };
}

/// Tells whether the slot of one of these names passes.
fn some_of<T: SlotTest>(universe: &Universe, slots: &Slots, listed: &[u32], test: &T) -> bool
    requires fits { T.fits universe.now test.now }
    requires slots { AreSlots universe.now slots.now }
    ensures { result ≡ list_any (λ n. T.test universe.now test.now n (chroots.slot slots.now n))
        listed.now }
{
    for name in listed {
        if test.passes(universe, *name, slot_at(slots, *name)) {
            return true;
        }
    }
    false
}

/// Tells whether the slot of some name passes. The names that are present are looked at alone.
pub fn some_slot<T: SlotTest>(universe: &Universe, slots: &Slots, test: &T) -> bool
    requires fits { T.fits universe.now test.now }
    requires slots { AreSlots universe.now slots.now }
    ensures { result ≡ chroots.some_slot slots.now (T.test universe.now test.now) }
{
    some_of(universe, slots, slots.present(), test)
}

/// Tells whether the slot of a name that an entry names passes.
fn some_named_slot<T: SlotTest>(universe: &Universe, slots: &Slots, entry: &Entry, test: &T) -> bool
    requires fits { T.fits universe.now test.now }
    requires slots { AreSlots universe.now slots.now }
    ensures { result ≡ true → chroots.some_slot slots.now (T.test universe.now test.now) ≡ true }
{
    for atom in entry.alternatives() {
        if let Some(name) = universe.find(atom.name()) {
            if test.passes(universe, name, slot_at(slots, name)) {
                return true;
            }
        }
    }
    false
}

/// Tells whether the slot of some name passes. The names that an entry names are looked at first,
/// since mostly one of them meets it.
pub fn some_slot_for<T: SlotTest>(
    universe: &Universe,
    slots: &Slots,
    entry: &Entry,
    test: &T,
) -> bool
    requires fits { T.fits universe.now test.now }
    requires slots { AreSlots universe.now slots.now }
    ensures { result ≡ chroots.some_slot slots.now (T.test universe.now test.now) }
{
    some_named_slot(universe, slots, entry, test) || some_slot(universe, slots, test)
}
