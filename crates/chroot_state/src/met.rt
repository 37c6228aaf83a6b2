//! Which entries are met in a chroot.

ghost use Rattle.std.proofs.Math.Bool.{and-false};
ghost use Rattle.std.specs.Prelude.{◌≡◌, ◌&&◌, ◌||◌, ◌==◌, not, refl};
ghost use Rattle.std.specs.List.{list_any};
ghost use Rattle.chroot_state.specs.Slots.{IsKnownSlot, AreSlots};
ghost use Rattle.farm_model.specs.Chroot as chroots;
ghost use Rattle.farm_model.specs.Common.{variant, satisfies_entry, IsKnown};

use crate::held::Slots;
use crate::slots::{SlotTest, holds, holds_configured, some_slot_for};
use deb_relation::{Entry, Relations};
use farm_universe::relations::{SatisfiesEntry, satisfies_entry};
use farm_universe::{Slot, Universe, Variant};

/// Configured variants that satisfy an entry.
#[derive(Drop)]
struct Meets<'a> {
    entry: &'a Entry,
}

impl SlotTest for Meets<'_> {
    ghost test = { λ u t n s.
        chroots.holds_configured (λ b. satisfies_entry u t.entry.now (variant n b)) s };

    fn passes(&self, universe: &Universe, name: u32, slot: Slot) -> bool {
        holds_configured(universe, name, slot, &SatisfiesEntry { entry: self.entry })
    }

    ghost absent = { λ _ _ _. refl };
}

/// Tells whether an entry is met (Debian Policy 7.2).
#[tactic(auto, unfolding(farm_model::specs::Chroot::meets_entry))]
pub fn met(universe: &Universe, slots: &Slots, entry: &Entry) -> bool
    requires { AreSlots universe.now slots.now }
    ensures { result ≡ chroots.meets_entry universe.now slots.now entry.now }
{
    some_slot_for(universe, slots, entry, &Meets { entry })
}

/// Tells whether a name is a member of a set.
pub fn is_member(members: &[u32], name: u32) -> bool
    ensures { result ≡ chroots.member members.now name }
{
    members.iter().any(|member| *member == name)
}

/// Configured variants that satisfy an entry, and present ones of members.
#[derive(Drop)]
struct MeetsWith<'a> {
    members: &'a [u32],
    entry: &'a Entry,
}

impl SlotTest for MeetsWith<'_> {
    ghost test = { λ u t n s.
        chroots.holds_configured (λ b. satisfies_entry u t.entry.now (variant n b)) s
        || (chroots.member t.members.now n
        && chroots.holds (λ b. satisfies_entry u t.entry.now (variant n b)) s) };

    fn passes(&self, universe: &Universe, name: u32, slot: Slot) -> bool {
        let test = SatisfiesEntry { entry: self.entry };
        holds_configured(universe, name, slot, &test)
            || (holds(universe, name, slot, &test) && is_member(self.members, name))
    }

    ghost absent = { λ _ _ _. and-false _ };
}

/// Tells whether an entry is met where members count too, since they are configured together.
#[tactic(auto, unfolding(farm_model::specs::Chroot::met_with))]
pub fn met_with(universe: &Universe, members: &[u32], slots: &Slots, entry: &Entry) -> bool
    requires { AreSlots universe.now slots.now }
    ensures { result ≡ chroots.met_with universe.now members.now slots.now entry.now }
{
    some_slot_for(universe, slots, entry, &MeetsWith { members, entry })
}

/// Tells whether both variants of a name satisfy one alternative of an entry.
fn both_satisfy(universe: &Universe, entry: &Entry, name: u32, bit: u32, last: u32) -> bool
    requires known { IsKnown universe.now (variant name bit) }
    requires known_last { IsKnown universe.now (variant name last) }
    ensures { result ≡ chroots.both_satisfy universe.now entry.now name bit (Some last) }
{
    entry.alternatives().iter().any(|atom| {
        universe.satisfies(Variant { name, bit }, atom)
            && universe.satisfies(Variant { name, bit: last }, atom)
    })
}

/// Tells whether what is held of a name meets an entry ahead of an unpack.
fn pre_meets(universe: &Universe, entry: &Entry, name: u32, slot: Slot) -> bool
    requires { IsKnownSlot universe.now name slot }
    ensures { result ≡ chroots.pre_meets universe.now entry.now name slot }
{
    match slot {
        Slot::Absent => false,
        Slot::Unpacked { bit: _, last: None } => false,
        Slot::Unpacked {
            bit,
            last: Some(last),
        } => { both_satisfy(universe, entry, name, bit, last) }
        Slot::Configured { bit } => satisfies_entry(universe, entry, Variant { name, bit }),
    }
}

/// Names, except the one to be unpacked, that meet an entry ahead of the unpack.
#[derive(Drop)]
struct MeetsAhead<'a> {
    name: u32,
    entry: &'a Entry,
}

impl SlotTest for MeetsAhead<'_> {
    ghost test = { λ u t n s. not (n == t.name) && chroots.pre_meets u t.entry.now n s };

    fn passes(&self, universe: &Universe, name: u32, slot: Slot) -> bool {
        name != self.name && pre_meets(universe, self.entry, name, slot)
    }

    ghost absent = { λ _ _ _. and-false _ };
}

/// Tells whether an entry is met ahead of the unpack of a name (Debian Policy 7.2, Pre-Depends).
#[tactic(auto, unfolding(farm_model::specs::Chroot::pre_met))]
pub fn pre_met(universe: &Universe, name: u32, slots: &Slots, entry: &Entry) -> bool
    requires { AreSlots universe.now slots.now }
    ensures { result ≡ chroots.pre_met universe.now name slots.now entry.now }
{
    some_slot_for(universe, slots, entry, &MeetsAhead { name, entry })
}

/// Tells whether some entry is not met.
pub fn misses(universe: &Universe, slots: &Slots, entries: &Relations) -> bool
    requires { AreSlots universe.now slots.now }
    ensures { result ≡ chroots.unmet (chroots.meets_entry universe.now slots.now) entries.now }
{
    entries
        .entries()
        .iter()
        .any(|entry| !met(universe, slots, entry))
}

/// Tells whether some entry is not met where members count too.
pub fn misses_with(universe: &Universe, members: &[u32], slots: &Slots, entries: &Relations) -> bool
    requires { AreSlots universe.now slots.now }
    ensures { result
        ≡ chroots.unmet (chroots.met_with universe.now members.now slots.now) entries.now }
{
    entries
        .entries()
        .iter()
        .any(|entry| !met_with(universe, members, slots, entry))
}

/// Tells whether some entry is not met ahead of the unpack of a name.
pub fn misses_ahead(universe: &Universe, name: u32, slots: &Slots, entries: &Relations) -> bool
    requires { AreSlots universe.now slots.now }
    ensures { result ≡ chroots.unmet (chroots.pre_met universe.now name slots.now) entries.now }
{
    entries
        .entries()
        .iter()
        .any(|entry| !pre_met(universe, name, slots, entry))
}
