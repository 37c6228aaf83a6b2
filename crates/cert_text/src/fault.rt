//! Why a certificate is refused.

ghost use Rattle.std.specs.Prelude.{◌≡◌};
ghost use Rattle.cert_text.specs.Faults.{cert_code_of};

use deb_text::MEMORY;
use farm_model::Trap;
use std::alloc::{AllocError, AllocFailed};
use thiserror::Error;

/// The text is not that of a certificate of this plan.
pub const BAD_TEXT: u16 = 451;

/// A row has a variant that its lane need not know there.
pub const NOT_JUSTIFIED: u16 = 452;

/// An instruction may trap, as far as the rows tell.
pub const UNSAFE: u16 = 453;

/// The list of lanes is no order of the waits and outputs.
pub const BAD_ORDER: u16 = 454;

/// Branches leave some name in different phases, as far as the rows tell.
pub const UNEVEN: u16 = 455;

/// Why a certificate is refused. Lanes count from 0; lines, instructions and items from 1.
#[derive(Clone, Copy, Debug, PartialEq, Eq, Error)]
pub enum CertFault {
    /// The text is refused at this line, 0 for the whole text.
    #[error("line {line} is not the certificate's")]
    Text {
        line: u32,
    },
    /// The row behind this instruction is not justified.
    #[error("the row of lane {lane} behind instruction {instruction} is not justified")]
    Row {
        lane: u32,
        instruction: u32,
    },
    /// This instruction may trap.
    #[error("instruction {instruction} of lane {lane} may trap: {trap}")]
    Unsafe {
        lane: u32,
        instruction: u32,
        trap: Trap,
    },
    /// The branches of this `when` leave some name in different phases.
    #[error("the branches of instruction {instruction} of lane {lane} end in different phases")]
    Uneven {
        lane: u32,
        instruction: u32,
    },
    /// This item of the order cannot step, or is missing.
    #[error("item {item} of the order cannot step")]
    Order {
        item: u64,
    },
    /// Memory ran out.
    #[error("out of memory")]
    Memory,
}

impl CertFault {
    /// The number of the fault among those that the program prints.
    pub const fn code(self) -> u16
        ensures { result ≡ cert_code_of self }
    {
        match self {
            CertFault::Text { .. } => BAD_TEXT,
            CertFault::Row { .. } => NOT_JUSTIFIED,
            CertFault::Unsafe { .. } => UNSAFE,
            CertFault::Uneven { .. } => UNEVEN,
            CertFault::Order { .. } => BAD_ORDER,
            CertFault::Memory => MEMORY,
        }
    }
}

impl From<AllocError> for CertFault {
    ghost use Rattle.cert_text.specs.declared.fault.CertFault.TheVariants.{Memory};

    ghost from_gives = { λ _ fault. fault ≡ Memory };

    fn from(_error: AllocError) -> CertFault {
        CertFault::Memory
    }
}

impl<T: Drop> From<AllocFailed<T>> for CertFault {
    ghost use Rattle.cert_text.specs.declared.fault.CertFault.TheVariants.{Memory};

    ghost from_gives = { λ _ fault. fault ≡ Memory };

    fn from(_error: AllocFailed<T>) -> CertFault {
        CertFault::Memory
    }
}
