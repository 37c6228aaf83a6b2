//! Laws of lanes and their records, each the contract of a function that does nothing.

ghost use Rattle.archive_laws.specs.Laws.{LoadsAreInBounds, NoTrapWithinBounds, LocalStepsLeadOn, NextOutputIsByNumber};

/// A word that a lane loads at its next archive step is within bounds there.
pub fn loads_are_in_bounds()
    ensures { LoadsAreInBounds }
{}

/// A lane that keeps to its may map meets no trap over a word within bounds, and keeps to it.
pub fn no_trap_within_bounds()
    ensures { NoTrapWithinBounds }
{}

/// Local instructions leave a lane on its way to the same archive step, at which it is ready, as it
/// is at its end.
pub fn local_steps_lead_on()
    ensures { LocalStepsLeadOn }
{}

/// The next output of a lane is the one whose number is the count of those that it has made.
pub fn next_output_is_by_number()
    ensures { NextOutputIsByNumber }
{}
