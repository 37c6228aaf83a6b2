//! The traps of a deconfigure and of a remove.

ghost use Rattle.std.proofs.Math.Bool.{and-false};
ghost use Rattle.std.specs.Prelude.{◌≡◌, ◌&&◌, not};
ghost use Rattle.std.specs.List.{list_any};
ghost use Rattle.chroot_state.specs.Needed.{met_inside, met_outside, needs_members, is_needed};
ghost use Rattle.chroot_state.specs.Slots.{AreSlots};
ghost use Rattle.farm_model.specs.Chroot as chroots;
ghost use Rattle.farm_model.specs.Common.{variant, satisfies_entry, first_trap};
ghost use Rattle.farm_model.specs.Traps as traps;

use crate::held::{Slots, is_present};
use crate::members::some_member;
use crate::met::is_member;
use crate::slots::{SlotTest, holds_configured, is_configured, slot_at, some_slot, some_slot_for};
use deb_relation::{Entry, Relations};
use farm_universe::essential::IsEssential;
use farm_universe::relations::{SatisfiesEntry, VariantTest};
use farm_universe::{Slot, Trap, Universe, Variant};

/// Configured variants outside of a set that satisfy an entry.
#[derive(Drop)]
struct MeetsOutside<'a> {
    members: &'a [u32],
    entry: &'a Entry,
}

impl SlotTest for MeetsOutside<'_> {
    ghost test = { λ u t n s. not (chroots.member t.members.now n)
        && chroots.holds_configured (λ b. satisfies_entry u t.entry.now (variant n b)) s };

    fn passes(&self, universe: &Universe, name: u32, slot: Slot) -> bool {
        let test = SatisfiesEntry { entry: self.entry };
        holds_configured(universe, name, slot, &test) && !is_member(self.members, name)
    }

    ghost absent = { λ _ _ _. and-false _ };
}

/// Tells whether something outside of a set meets an entry.
#[tactic(auto, unfolding(crate::specs::Needed::met_outside))]
fn met_outside(universe: &Universe, members: &[u32], slots: &Slots, entry: &Entry) -> bool
    requires { AreSlots universe.now slots.now }
    ensures { result ≡ met_outside universe.now members.now slots.now entry.now }
{
    some_slot_for(universe, slots, entry, &MeetsOutside { members, entry })
}

/// Tells whether a configured member satisfies an entry.
fn met_inside(universe: &Universe, members: &[u32], slots: &Slots, entry: &Entry) -> bool
    requires { AreSlots universe.now slots.now }
    ensures { result ≡ met_inside universe.now members.now slots.now entry.now }
{
    let test = SatisfiesEntry { entry };
    for member in members {
        if holds_configured(universe, *member, slot_at(slots, *member), &test) {
            return true;
        }
    }
    false
}

/// Tells whether some entry is met by members alone.
fn needs_members(universe: &Universe, members: &[u32], slots: &Slots, entries: &Relations) -> bool
    requires { AreSlots universe.now slots.now }
    ensures { result
        ≡ list_any (needs_members universe.now members.now slots.now) entries.now }
{
    entries.entries().iter().any(|entry| {
        met_inside(universe, members, slots, entry) && !met_outside(universe, members, slots, entry)
    })
}

/// The variants with an entry that members alone meet.
#[derive(Drop)]
struct NeedsMembers<'a> {
    members: &'a [u32],
    slots: &'a Slots,
}

impl VariantTest for NeedsMembers<'_> {
    ghost fits = { λ u t. AreSlots u t.slots.now };

    ghost test = { λ u t v.
        list_any (needs_members u t.members.now t.slots.now) (chroots.entries u v) };

    fn passes(&self, universe: &Universe, variant: Variant) -> bool {
        let relations = universe.relations(variant);
        needs_members(universe, self.members, self.slots, &relations.depends)
            || needs_members(universe, self.members, self.slots, &relations.pre_depends)
    }
}

/// Configured variants outside of a set with an entry that members alone meet.
#[derive(Drop)]
struct HoldsNeedy<'a> {
    members: &'a [u32],
    slots: &'a Slots,
}

impl SlotTest for HoldsNeedy<'_> {
    ghost fits = { λ u t. AreSlots u t.slots.now };

    ghost test = { λ u t n s. not (chroots.member t.members.now n)
        && chroots.holds_configured (λ b. list_any (needs_members u t.members.now t.slots.now)
        (chroots.entries u (variant n b))) s };

    fn passes(&self, universe: &Universe, name: u32, slot: Slot) -> bool {
        let test = NeedsMembers {
            members: self.members,
            slots: self.slots,
        };
        !is_member(self.members, name) && holds_configured(universe, name, slot, &test)
    }

    ghost absent = { λ _ _ _. and-false _ };
}

/// Tells whether a configured package outside of a set still needs a member. The entries of each
/// configured package are looked at once, and only those that a member satisfies any further.
#[tactic(auto, unfolding(crate::specs::Needed::is_needed))]
fn is_needed(universe: &Universe, members: &[u32], slots: &Slots) -> bool
    requires { AreSlots universe.now slots.now }
    ensures { result ≡ is_needed universe.now members.now slots.now }
{
    some_slot(universe, slots, &HoldsNeedy { members, slots })
}

/// Tells whether some member is not configured.
fn some_not_configured(members: &[u32], slots: &Slots) -> bool
    ensures { result
        ≡ list_any (λ m. not (chroots.is_configured (chroots.slot slots.now m))) members.now }
{
    members
        .iter()
        .any(|member| !is_configured(slot_at(slots, *member)))
}

/// The first trap of a deconfigure of members.
pub fn deconfigure_trap(universe: &Universe, slots: &Slots, members: &[u32]) -> Option<Trap>
    requires { AreSlots universe.now slots.now }
    ensures { result ≡ first_trap (traps.deconfigure_traps universe.now slots.now members.now) }
{
    if some_not_configured(members, slots) {
        return Some(Trap::WrongState); // X6
    }
    if is_needed(universe, members, slots) {
        return Some(Trap::StillNeeded); // X9
    }
    None
}

/// Tells whether some member is absent.
fn some_absent(members: &[u32], slots: &Slots) -> bool
    ensures { result
        ≡ list_any (λ m. not (chroots.is_present (chroots.slot slots.now m))) members.now }
{
    members
        .iter()
        .any(|member| !is_present(slot_at(slots, *member)))
}

/// The first trap of a remove of members.
pub fn remove_trap(universe: &Universe, slots: &Slots, members: &[u32]) -> Option<Trap>
    requires { AreSlots universe.now slots.now }
    ensures { result ≡ first_trap (traps.remove_traps universe.now slots.now members.now) }
{
    if some_absent(members, slots) {
        return Some(Trap::WrongState); // X6
    }
    if some_member(universe, members, slots, &IsEssential) {
        return Some(Trap::Essential); // X15
    }
    if is_needed(universe, members, slots) {
        return Some(Trap::StillNeeded); // X9
    }
    None
}
