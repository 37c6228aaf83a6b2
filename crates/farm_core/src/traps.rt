//! What instructions do to a chroot, with their traps tested or known to be unmet.

ghost use Rattle.std.specs.Prelude.{◌≡◌, ◌<◌, None, OnOk, OnErr, All, length};
ghost use Rattle.std.specs.Result.{result_err};
ghost use Rattle.chroot_state.specs.Held.{IsHeld, room, with_slots};
ghost use Rattle.farm_core.specs.declared.traps.Traps.TheVariants.{Unmet};
ghost use Rattle.farm_model.specs.Common.{names, recipe as recipe_of, IsKnown, first_trap, unpack_traps, unpacked, configure_traps, configured, deconfigure_traps, deconfigured, remove_traps, removed, build_traps};

use chroot_state::{Change, Chroot};
use farm_universe::{Trap, Universe, Variant};

/// Whether the traps of a chroot are tested.
#[derive(Clone, Copy, PartialEq, Eq)]
pub enum Traps {
    /// They are tested.
    Tested,
    /// They are not tested: whoever asks knows that none is met.
    Unmet,
}

impl Traps {
    /// Unpacks a variant.
    pub fn unpack(
        self,
        chroot: &mut Chroot,
        universe: &Universe,
        variant: Variant,
    ) -> Result<(), Trap>
        requires held { IsHeld universe.now chroot.old }
        requires known { IsKnown universe.now variant }
        requires free { self ≡ Unmet → first_trap (unpack_traps universe.now
            (room universe.now chroot.old) chroot.old.slots variant) ≡ None }
        ensures trap { result_err result ≡ first_trap (unpack_traps universe.now
            (room universe.now chroot.old) chroot.old.slots variant) }
        ensures ok { OnOk result (chroot.new
            ≡ with_slots universe.now chroot.old (unpacked chroot.old.slots variant)) }
        ensures err { OnErr result (chroot.new ≡ chroot.old) }
        ensures held { IsHeld universe.now chroot.new }
    {
        match self {
            Traps::Tested => chroot.unpack(universe, variant),
            Traps::Unmet => {
                chroot.unpack_untested(universe, variant);
                Ok(())
            }
        }
    }

    /// Configures the members of a set.
    pub fn configure(
        self,
        chroot: &mut Chroot,
        universe: &Universe,
        members: &[u32],
    ) -> Result<(), Trap>
        requires held { IsHeld universe.now chroot.old }
        requires named { All (λ m. m < names universe.now) members.now }
        requires free { self ≡ Unmet
            → first_trap (configure_traps universe.now chroot.old.slots members.now) ≡ None }
        ensures trap { result_err result
            ≡ first_trap (configure_traps universe.now chroot.old.slots members.now) }
        ensures ok { OnOk result (chroot.new
            ≡ with_slots universe.now chroot.old (configured chroot.old.slots members.now)) }
        ensures err { OnErr result (chroot.new ≡ chroot.old) }
        ensures held { IsHeld universe.now chroot.new }
    {
        match self {
            Traps::Tested => chroot.configure(universe, members),
            Traps::Unmet => {
                chroot.change(universe, members, Change::Configure);
                Ok(())
            }
        }
    }

    /// Takes the members of a set back to unpacked.
    pub fn deconfigure(
        self,
        chroot: &mut Chroot,
        universe: &Universe,
        members: &[u32],
    ) -> Result<(), Trap>
        requires held { IsHeld universe.now chroot.old }
        requires named { All (λ m. m < names universe.now) members.now }
        requires free { self ≡ Unmet
            → first_trap (deconfigure_traps universe.now chroot.old.slots members.now) ≡ None }
        ensures trap { result_err result
            ≡ first_trap (deconfigure_traps universe.now chroot.old.slots members.now) }
        ensures ok { OnOk result (chroot.new
            ≡ with_slots universe.now chroot.old (deconfigured chroot.old.slots members.now)) }
        ensures err { OnErr result (chroot.new ≡ chroot.old) }
        ensures held { IsHeld universe.now chroot.new }
    {
        match self {
            Traps::Tested => chroot.deconfigure(universe, members),
            Traps::Unmet => {
                chroot.change(universe, members, Change::Deconfigure);
                Ok(())
            }
        }
    }

    /// Removes the members of a set.
    pub fn remove(
        self,
        chroot: &mut Chroot,
        universe: &Universe,
        members: &[u32],
    ) -> Result<(), Trap>
        requires held { IsHeld universe.now chroot.old }
        requires named { All (λ m. m < names universe.now) members.now }
        requires free { self ≡ Unmet
            → first_trap (remove_traps universe.now chroot.old.slots members.now) ≡ None }
        ensures trap { result_err result
            ≡ first_trap (remove_traps universe.now chroot.old.slots members.now) }
        ensures ok { OnOk result (chroot.new
            ≡ with_slots universe.now chroot.old (removed chroot.old.slots members.now)) }
        ensures err { OnErr result (chroot.new ≡ chroot.old) }
        ensures held { IsHeld universe.now chroot.new }
    {
        match self {
            Traps::Tested => chroot.remove(universe, members),
            Traps::Unmet => {
                chroot.change(universe, members, Change::Remove);
                Ok(())
            }
        }
    }

    /// Tells whether a recipe can be built in a chroot, which stays as it is.
    pub fn can_build(self, chroot: &Chroot, universe: &Universe, recipe: u32) -> Result<(), Trap>
        requires held { IsHeld universe.now chroot.now }
        requires known { recipe < length universe.now.recipes }
        requires free { self ≡ Unmet → first_trap (build_traps universe.now
            (room universe.now chroot.now) chroot.now.slots (recipe_of universe.now recipe))
            ≡ None }
        ensures { result_err result ≡ first_trap (build_traps universe.now
            (room universe.now chroot.now) chroot.now.slots (recipe_of universe.now recipe)) }
    {
        match self {
            Traps::Tested => chroot.can_build(universe, recipe),
            Traps::Unmet => Ok(()),
        }
    }
}
