//! A refusal of the texts of a farm, and what stands before it.

ghost use Rattle.std.specs.Prelude.{◌≡◌};

use crate::universe::Universe;
use deb_text::Fault;
use std::alloc::AllocError;

/// Where the texts of a farm are refused, and why; and what stands before that: where a paragraph of
/// the farm text is refused, the packages and what its first paragraph says, without recipes and
/// base chroots, or the packages alone where the first one is refused; where a plan is refused, the
/// whole universe. Of the packages and the sources there is none.
#[derive(Drop)]
pub struct Refused {
    pub fault: Fault,
    pub before: Option<Universe>,
}

impl From<Fault> for Refused {
    ghost use Rattle.std.specs.Prelude.{None};

    ghost from_gives = { λ fault refused. refused ≡ record { fault = fault; before = None } };

    fn from(fault: Fault) -> Refused {
        Refused {
            fault,
            before: None,
        }
    }
}

impl From<AllocError> for Refused {
    ghost use Rattle.std.specs.Prelude.{None};

    ghost from_gives = { λ _ refused. refused
        ≡ record { fault = record { file = 0; line = 0; code = 900 }; before = None } };

    fn from(_error: AllocError) -> Refused {
        Refused::from(Fault::MEMORY)
    }
}

impl From<Refused> for Fault {
    ghost from_gives = { λ refused fault. fault ≡ refused.fault };

    fn from(refused: Refused) -> Fault {
        refused.fault
    }
}
