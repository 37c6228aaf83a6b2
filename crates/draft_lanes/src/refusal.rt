//! Why a plan is not drafted.

/// Why a recipe cannot be placed in a lane. Recipes, lanes and variants go by their numbers.
#[derive(Drop)]
pub enum Refusal {
    /// The search for what the chroot is to hold was given up (800).
    GaveUp {
        recipe: usize,
        lane: usize,
    },
    /// No order of unpacks and configures was found in which these are installed (803).
    NoOrder {
        recipe: usize,
        lane: usize,
        stuck: Vec<usize>,
    },
    /// No order was found in which this Essential variant is removed (803).
    Stays {
        recipe: usize,
        lane: usize,
        variant: usize,
    },
    /// No content of the chroot was found that fits: the first would take so many KiB (804).
    TooSmall {
        recipe: usize,
        lane: usize,
        wanted: u64,
    },
    /// No wait tells for sure that a variant is there (805).
    NoWait {
        recipe: usize,
        lane: usize,
        variant: usize,
    },
    /// The lane would cost so much (806).
    OverBudget {
        recipe: usize,
        lane: usize,
        cost: u64,
    },
    /// What the recipe needs cannot be there beside what the lane must keep (808).
    NoPlace {
        recipe: usize,
        lane: usize,
    },
}

impl Refusal {
    /// The recipe that cannot be placed.
    pub fn recipe(&self) -> usize {
        match self {
            Refusal::GaveUp { recipe, .. }
            | Refusal::NoOrder { recipe, .. }
            | Refusal::Stays { recipe, .. }
            | Refusal::TooSmall { recipe, .. }
            | Refusal::NoWait { recipe, .. }
            | Refusal::OverBudget { recipe, .. }
            | Refusal::NoPlace { recipe, .. } => *recipe,
        }
    }

    /// The lane that was tried first.
    pub fn lane(&self) -> usize {
        match self {
            Refusal::GaveUp { lane, .. }
            | Refusal::NoOrder { lane, .. }
            | Refusal::Stays { lane, .. }
            | Refusal::TooSmall { lane, .. }
            | Refusal::NoWait { lane, .. }
            | Refusal::OverBudget { lane, .. }
            | Refusal::NoPlace { lane, .. } => *lane,
        }
    }

    /// Tells whether it may be otherwise once more is built: not where a budget does not suffice.
    pub(crate) fn may_pass(&self) -> bool {
        match self {
            Refusal::GaveUp { .. }
            | Refusal::NoOrder { .. }
            | Refusal::Stays { .. }
            | Refusal::TooSmall { .. }
            | Refusal::NoWait { .. }
            | Refusal::NoPlace { .. } => true,
            Refusal::OverBudget { .. } => false,
        }
    }
    /// Tells whether no other content of the chroot is left to try.
    pub(crate) fn ends_tries(&self) -> bool {
        match self {
            Refusal::GaveUp { .. } | Refusal::NoPlace { .. } => true,
            Refusal::NoOrder { .. }
            | Refusal::Stays { .. }
            | Refusal::TooSmall { .. }
            | Refusal::NoWait { .. }
            | Refusal::OverBudget { .. } => false,
        }
    }
}
