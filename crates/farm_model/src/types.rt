//! The small types that definitions and code share.

ghost use Rattle.std.specs.Prelude.{◌≡◌};
ghost use Rattle.farm_model.specs.TrapText.{trap_text};

use std::error::Error;
use std::fmt;

/// One version of a package: the number of its name, and its place among the name's versions,
/// 0 for the lowest.
#[derive(Clone, Copy, Debug, PartialEq, Eq)]
pub struct Variant {
    pub name: u32,
    pub bit: u32,
}

/// What a chroot holds of a name. A configured variant is also the last configured one.
#[derive(Clone, Copy, Debug, PartialEq, Eq)]
pub enum Slot {
    /// Nothing.
    Absent,
    /// A variant that is unpacked, and the one that was configured last, where there was one.
    Unpacked { bit: u32, last: Option<u32> },
    /// A variant that is configured.
    Configured { bit: u32 },
}

/// Which packages of a source a build makes (Debian Policy 7.7).
#[derive(Clone, Copy, Debug, PartialEq, Eq)]
pub enum Mode {
    /// All of them.
    Full,
    /// Those of one architecture.
    Arch,
    /// Those of all architectures.
    Indep,
}

/// Why an instruction cannot be carried out.
#[derive(Clone, Copy, Debug, PartialEq, Eq)]
pub enum Trap {
    /// No variant in the archive is in the stated relation.
    Missing,
    /// A Pre-Depends entry is not met.
    PreDepends,
    /// A present variant of another name is in conflict with the one to be unpacked.
    Conflict,
    /// The variant to be unpacked breaks a configured one.
    BreaksOther,
    /// The capacity of the chroot does not suffice.
    Full,
    /// A member of the set is not in the state that the instruction asks for.
    WrongState,
    /// A Depends entry is not met.
    Depends,
    /// A present variant of another name breaks the one to be configured.
    Broken,
    /// A configured package outside the set still needs a member of it.
    StillNeeded,
    /// A present package is not configured, or an entry of it is not met.
    Unsettled,
    /// A build dependency is not met.
    BuildDepends,
    /// A present variant is in a build conflict.
    BuildConflict,
    /// The recipe was not built in this lane.
    NotBuilt,
    /// The cost spent would be over the budget.
    OverBudget,
    /// A member to be removed is Essential.
    Essential,
}

impl Trap {
    /// The trap as answers name it: its number and its name.
    pub fn text(self) -> &'static str
        ensures { result.now ≡ trap_text self }
    {
        match self {
            Trap::Missing => "X1 Missing",
            Trap::PreDepends => "X2 PreDepends",
            Trap::Conflict => "X3 Conflict",
            Trap::BreaksOther => "X4 BreaksOther",
            Trap::Full => "X5 Full",
            Trap::WrongState => "X6 WrongState",
            Trap::Depends => "X7 Depends",
            Trap::Broken => "X8 Broken",
            Trap::StillNeeded => "X9 StillNeeded",
            Trap::Unsettled => "X10 Unsettled",
            Trap::BuildDepends => "X11 BuildDepends",
            Trap::BuildConflict => "X12 BuildConflict",
            Trap::NotBuilt => "X13 NotBuilt",
            Trap::OverBudget => "X14 OverBudget",
            Trap::Essential => "X15 Essential",
        }
    }
}

impl fmt::Display for Trap {
    ghost use Rattle.std.specs.Prelude.{Some};

    ghost output = { λ trap. Some (trap_text trap) };

    fn fmt<W: fmt::Write>(&self, f: &mut fmt::Formatter<W>) -> fmt::Result {
        f.pad(self.text())
    }
}

impl Error for Trap {}
