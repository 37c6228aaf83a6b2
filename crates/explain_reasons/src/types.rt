//! Why an instruction may meet a trap.

use farm_universe::Variant;
use std::alloc::AllocError;

/// Whether something stands behind others now: not where memory is refused.
pub type Pushed = Result<(), AllocError>;

/// Reasons, one after another: none where memory is refused.
pub type Found = Result<Vec<Reason>, AllocError>;

/// A field of a package that asks for others (Debian Policy 7.2).
#[derive(Clone, Copy, PartialEq, Eq)]
pub enum Field {
    PreDepends,
    Depends,
}

/// Why an instruction may meet a trap: a witness of the trap's test. Names and recipes go by their
/// numbers, entries by their places in the field, from 0.
#[derive(Clone, Copy, PartialEq, Eq)]
pub enum Reason {
    /// X1: of this name no variant that is surely in the archive is in the relation.
    Missing(u32),
    /// X14: the most that may be spent before, what the instruction costs at most, and the lane's
    /// budget, in steps.
    OverBudget {
        spent: u64,
        cost: u64,
        budget: u64,
    },
    /// X5: what may be in use, what is added at most, and the capacity of the chroot, in KiB.
    Full {
        used: u64,
        added: u64,
        capacity: u64,
    },
    /// X2, X7, X10: a variant that may be there, and its entry that is not surely met.
    Unmet(Variant, Field, usize),
    /// X10: a name that is unpacked and not configured.
    Unsettled(u32),
    /// X11: a recipe, and the need that is not surely met.
    BuildNeed(u32, usize),
    /// X3: the variant to be unpacked, and one that may be there.
    Conflict(Variant, Variant),
    /// X4, X8: a variant, and the one that it breaks.
    Breaks(Variant, Variant),
    /// X12: a recipe, and a variant that may be there and satisfies a clash.
    BuildConflict(u32, Variant),
    /// X6: a member that may not be in the state that the instruction asks for.
    WrongState(u32),
    /// X15: a variant that a member may hold.
    Essential(Variant),
    /// X13: a recipe that may not have been built.
    NotBuilt(u32),
    /// X9: a configured variant outside the set, and its entry for which a member may be needed.
    StillNeeded(Variant, Field, usize),
}
