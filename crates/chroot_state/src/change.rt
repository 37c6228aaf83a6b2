//! What the instructions on sets do to what a chroot holds of a member.

ghost use Rattle.std.specs.Prelude.{◌≡◌};
ghost use Rattle.chroot_state.specs.Changes.{changed_slot};

use farm_universe::Slot;

/// A change of a slot.
#[derive(Clone, Copy, PartialEq, Eq)]
pub enum Change {
    /// What is unpacked is configured.
    Configure,
    /// What is configured is unpacked, and was configured last.
    Deconfigure,
    /// Nothing is left.
    Remove,
}

impl Change {
    /// The slot after the change.
    pub fn of(self, slot: Slot) -> Slot
        ensures { result ≡ changed_slot self slot }
    {
        match (self, slot) {
            (Change::Remove, _) => Slot::Absent,
            (_, Slot::Absent) => Slot::Absent,
            (Change::Configure, Slot::Unpacked { bit, last: _ }) => Slot::Configured { bit },
            (Change::Deconfigure, Slot::Configured { bit }) => Slot::Unpacked {
                bit,
                last: Some(bit),
            },
            (_, unchanged) => unchanged,
        }
    }
}
