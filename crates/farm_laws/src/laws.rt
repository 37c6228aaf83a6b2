//! The laws of an annotated plan, each the contract of a function that does nothing.

ghost use Rattle.farm_laws.specs.Laws.{EveryInterleaving, StatesAreForeseen, LanesAreWithinBudget, SchedulesMeetNoTrap};

/// Every interleaving of an annotated plan with an order is safe, goes on and ends.
pub fn every_interleaving()
    ensures { EveryInterleaving }
{}

/// In every state that is reached, the archive and the chroots are what the rows and may maps say.
pub fn states_are_foreseen()
    ensures { StatesAreForeseen }
{}

/// No lane spends more than its cost, which its budget covers.
pub fn lanes_are_within_budget()
    ensures { LanesAreWithinBudget }
{}

/// The result of every schedule of an annotated plan has no trap.
pub fn schedules_meet_no_trap()
    ensures { SchedulesMeetNoTrap }
{}
