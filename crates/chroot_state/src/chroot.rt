//! A chroot, and what instructions do to it.

ghost use Rattle.std.specs.Prelude.{◌≡◌, ◌<◌, IfOk, OnOk, OnErr, All, length, slice_set};
ghost use Rattle.std.specs.Option.{option_map};
ghost use Rattle.std.specs.Result.{result_err};
ghost use Rattle.chroot_state.specs.Changes.{changed_slot};
ghost use Rattle.chroot_state.specs.Held.{IsHeld, opened, room, with_slots};
ghost use Rattle.chroot_state.specs.Slots.{IsKnownSlot, bit_of, phase_of};
ghost use Rattle.farm_model.specs.Common.{slot, last_of, names, variant, recipe as recipe_of, IsKnown, first_trap};
ghost use Rattle.farm_model.specs.Traps as traps;

use crate::base::base_slots;
use crate::build::build_trap;
use crate::change::Change;
use crate::configure::configure_trap;
use crate::held::Slots;
use crate::phase::Phase;
use crate::slots::{bit_of, last_of, phase_of, slot_at};
use crate::space::{size_in, space};
use crate::unpack::unpack_trap;
use crate::withdraw::{deconfigure_trap, remove_trap};
use farm_universe::{Slot, Trap, Universe, Variant};
use std::alloc::{AllocError, Global};
use std::marker::Model;

/// A chroot: for each name of its universe, by number, what it holds of it. It belongs to the
/// universe that it was opened with, and is handed that one in each call.
#[derive(Drop)]
pub struct Chroot {
    slots: Slots,
    base: u32,
    used: u64,
}

impl Model for Chroot {
    ghost use Rattle.chroot_state.specs.Held.{Held};

    ghost Value = { Held };

    ghost view = { λ c. record { slots = c.slots; base = c.base; used = c.used } };
}

impl Chroot {
    /// Makes a chroot that holds what a base chroot holds.
    pub fn open(alloc: Global, universe: &Universe, base: u32) -> Result<Chroot, AllocError>
        requires { base < length universe.now.bases }
        ensures opened { IfOk result (λ chroot. chroot ≡ opened universe.now base) }
        ensures held { IfOk result (IsHeld universe.now) }
    {
        let slots = Slots::new(alloc, base_slots(alloc, universe, base)?)?;
        let used = space(universe, &slots);
        Ok(Chroot { slots, base, used })
    }

    /// The disk space that the present packages take, in KiB.
    pub fn used(&self) -> u64
        ensures { result ≡ self.now.used }
    {
        self.used
    }

    /// The phase of a name.
    pub fn phase(&self, name: u32) -> Phase
        ensures { result ≡ phase_of (slot self.now.slots name) }
    {
        phase_of(slot_at(&self.slots, name))
    }

    /// The present variant of a name.
    pub fn current(&self, name: u32) -> Option<Variant>
        ensures { result ≡ option_map (variant name) (bit_of (slot self.now.slots name)) }
    {
        match bit_of(slot_at(&self.slots, name)) {
            Some(bit) => Some(Variant { name, bit }),
            None => None,
        }
    }

    /// Puts what is held of a name.
    fn put(&mut self, universe: &Universe, name: u32, slot: Slot)
        requires held { IsHeld universe.now self.old }
        requires named { name < names universe.now }
        requires known { IsKnownSlot universe.now name slot }
        ensures put { self.new
            ≡ with_slots universe.now self.old (slice_set self.old.slots name slot) }
        ensures held { IsHeld universe.now self.new }
    {
        let _count = universe.names();
        let before = size_in(universe, name, slot_at(&self.slots, name));
        let after = size_in(universe, name, slot);
        self.used = self.used - before + after;
        self.slots.put(name, slot);
    }

    /// Changes what is held of each member, and asks for no trap: for whoever knows that none is
    /// met.
    pub fn change(&mut self, universe: &Universe, members: &[u32], change: Change)
        requires held { IsHeld universe.now self.old }
        requires named { All (λ m. m < names universe.now) members.now }
        ensures changed { self.new ≡ with_slots universe.now self.old
            (traps.changed (changed_slot change) self.old.slots members.now) }
        ensures held { IsHeld universe.now self.new }
    {
        for member in members {
            let slot = change.of(slot_at(&self.slots, *member));
            self.put(universe, *member, slot);
        }
    }

    /// Unpacks a variant, and asks for no trap: for whoever knows that none is met.
    pub fn unpack_untested(&mut self, universe: &Universe, variant: Variant)
        requires held { IsHeld universe.now self.old }
        requires known { IsKnown universe.now variant }
        ensures put { self.new
            ≡ with_slots universe.now self.old (traps.unpacked self.old.slots variant) }
        ensures held { IsHeld universe.now self.new }
    {
        let unpacked = Slot::Unpacked {
            bit: variant.bit,
            last: last_of(slot_at(&self.slots, variant.name)),
        };
        self.put(universe, variant.name, unpacked);
    }

    /// Unpacks a variant.
    ///
    /// # Errors
    ///
    /// The first trap of these, and the chroot is as it was: [`Trap::PreDepends`],
    /// [`Trap::Conflict`], [`Trap::BreaksOther`], [`Trap::Full`].
    pub fn unpack(&mut self, universe: &Universe, variant: Variant) -> Result<(), Trap>
        requires held { IsHeld universe.now self.old }
        requires known { IsKnown universe.now variant }
        ensures trap { result_err result ≡ first_trap
            (traps.unpack_traps universe.now (room universe.now self.old) self.old.slots variant) }
        ensures ok { OnOk result (self.new
            ≡ with_slots universe.now self.old (traps.unpacked self.old.slots variant)) }
        ensures err { OnErr result (self.new ≡ self.old) }
        ensures held { IsHeld universe.now self.new }
    {
        let room = universe.base(self.base).capacity();
        if let Some(trap) = unpack_trap(universe, room, self.used, &self.slots, variant) {
            return Err(trap);
        }
        self.unpack_untested(universe, variant);
        Ok(())
    }

    /// Configures unpacked packages together. Where there are none, nothing changes.
    ///
    /// # Errors
    ///
    /// The first trap of these, and the chroot is as it was: [`Trap::WrongState`],
    /// [`Trap::PreDepends`], [`Trap::Depends`], [`Trap::Broken`].
    pub fn configure(&mut self, universe: &Universe, members: &[u32]) -> Result<(), Trap>
        requires held { IsHeld universe.now self.old }
        requires named { All (λ m. m < names universe.now) members.now }
        ensures trap { result_err result
            ≡ first_trap (traps.configure_traps universe.now self.old.slots members.now) }
        ensures ok { OnOk result (self.new
            ≡ with_slots universe.now self.old (traps.configured self.old.slots members.now)) }
        ensures err { OnErr result (self.new ≡ self.old) }
        ensures held { IsHeld universe.now self.new }
    {
        if let Some(trap) = configure_trap(universe, &self.slots, members) {
            return Err(trap);
        }
        self.change(universe, members, Change::Configure);
        Ok(())
    }

    /// Takes configured packages back to unpacked. Where there are none, nothing changes.
    ///
    /// # Errors
    ///
    /// The first trap of these, and the chroot is as it was: [`Trap::WrongState`],
    /// [`Trap::StillNeeded`].
    pub fn deconfigure(&mut self, universe: &Universe, members: &[u32]) -> Result<(), Trap>
        requires held { IsHeld universe.now self.old }
        requires named { All (λ m. m < names universe.now) members.now }
        ensures trap { result_err result
            ≡ first_trap (traps.deconfigure_traps universe.now self.old.slots members.now) }
        ensures ok { OnOk result (self.new
            ≡ with_slots universe.now self.old (traps.deconfigured self.old.slots members.now)) }
        ensures err { OnErr result (self.new ≡ self.old) }
        ensures held { IsHeld universe.now self.new }
    {
        if let Some(trap) = deconfigure_trap(universe, &self.slots, members) {
            return Err(trap);
        }
        self.change(universe, members, Change::Deconfigure);
        Ok(())
    }

    /// Removes packages, and all that is known of them. Where there are none, nothing changes.
    ///
    /// # Errors
    ///
    /// The first trap of these, and the chroot is as it was: [`Trap::WrongState`],
    /// [`Trap::StillNeeded`].
    pub fn remove(&mut self, universe: &Universe, members: &[u32]) -> Result<(), Trap>
        requires held { IsHeld universe.now self.old }
        requires named { All (λ m. m < names universe.now) members.now }
        ensures trap { result_err result
            ≡ first_trap (traps.remove_traps universe.now self.old.slots members.now) }
        ensures ok { OnOk result (self.new
            ≡ with_slots universe.now self.old (traps.removed self.old.slots members.now)) }
        ensures err { OnErr result (self.new ≡ self.old) }
        ensures held { IsHeld universe.now self.new }
    {
        if let Some(trap) = remove_trap(universe, &self.slots, members) {
            return Err(trap);
        }
        self.change(universe, members, Change::Remove);
        Ok(())
    }

    /// Tells whether a recipe can be built here. The chroot stays as it is.
    ///
    /// # Errors
    ///
    /// The first trap of these: [`Trap::Unsettled`], [`Trap::BuildDepends`],
    /// [`Trap::BuildConflict`], [`Trap::Full`].
    pub fn can_build(&self, universe: &Universe, recipe: u32) -> Result<(), Trap>
        requires held { IsHeld universe.now self.now }
        requires known { recipe < length universe.now.recipes }
        ensures { result_err result ≡ first_trap (traps.build_traps universe.now
            (room universe.now self.now) self.now.slots (recipe_of universe.now recipe)) }
    {
        let room = universe.base(self.base).capacity();
        let recipe = universe.recipe(recipe);
        match build_trap(universe, room, self.used, &self.slots, recipe) {
            Some(trap) => Err(trap),
            None => Ok(()),
        }
    }
}
