//! Why four texts are refused.

ghost use Rattle.std.specs.Prelude.{◌≡◌, if◌then◌else◌};
ghost use Rattle.deb_text.specs.Answers.{is_memory};

use deb_text::Fault;
use farm_universe::{Refused, Trap};
use std::alloc::{AllocError, AllocFailed};

/// The code of [`Refusal::Unsafe`].
pub const UNSAFE: u16 = 401;

/// The code of [`Refusal::Uneven`].
pub const UNEVEN: u16 = 403;

/// The code of [`Refusal::Stuck`].
pub const STUCK: u16 = 402;

/// Why four texts are not accepted: the first cause in the order of the texts, then of the lanes
/// and their instructions, then of the waits.
#[derive(Debug, Drop)]
pub enum Refusal {
    /// A text cannot be read.
    Text(Fault),
    /// The instruction of this number, from 1, of the lane of this name may meet a trap
    /// ([`UNSAFE`]).
    Unsafe {
        lane: Vec<u8>,
        instruction: u32,
        trap: Trap,
    },
    /// The branches of the `when` of this number, from 1, of the lane of this name leave some name
    /// in different phases ([`UNEVEN`]).
    Uneven {
        lane: Vec<u8>,
        instruction: u32,
    },
    /// The lanes of these names wait, and no order of the lanes brings them past their last wait
    /// ([`STUCK`]).
    Stuck {
        lanes: Vec<Vec<u8>>,
    },
    /// Memory ran out.
    Memory,
}

impl From<AllocError> for Refusal {
    ghost use Rattle.plan_verifier.specs.declared.refusal.Refusal.{Refusal};

    ghost from_gives = { λ _ refusal. refusal ≡ Refusal.Memory };

    fn from(_error: AllocError) -> Refusal {
        Refusal::Memory
    }
}

impl<T: Drop> From<AllocFailed<T>> for Refusal {
    ghost use Rattle.plan_verifier.specs.declared.refusal.Refusal.{Refusal};

    ghost from_gives = { λ _ refusal. refusal ≡ Refusal.Memory };

    fn from(_error: AllocFailed<T>) -> Refusal {
        Refusal::Memory
    }
}

impl From<Fault> for Refusal {
    ghost use Rattle.plan_verifier.specs.declared.refusal.Refusal.{Refusal};

    ghost from_gives = { λ fault refusal.
        refusal ≡ (if is_memory fault then Refusal.Memory else Refusal.Text fault) };

    fn from(fault: Fault) -> Refusal {
        if fault == Fault::MEMORY {
            Refusal::Memory
        } else {
            Refusal::Text(fault)
        }
    }
}

impl From<Refused> for Refusal {
    ghost use Rattle.plan_verifier.specs.declared.refusal.Refusal.{Refusal};

    ghost from_gives = { λ refused refusal. refusal
        ≡ (if is_memory refused.fault then Refusal.Memory else Refusal.Text refused.fault) };

    fn from(refused: Refused) -> Refusal {
        Refusal::from(refused.fault)
    }
}
