//! Laws of verdicts.

ghost use Rattle.plan_verifier.specs.OneVerdict.{RefusalsAreRight, VerdictsAreOne};

/// A plan that is refused, for another cause than memory, has no known rows under which it is safe
/// together with an order of its waits and outputs. It does nothing.
pub fn refusals_are_right()
    ensures { RefusalsAreRight }
{}

/// Two verdicts on the same texts are one answer, memory apart. It does nothing.
pub fn verdicts_are_one()
    ensures { VerdictsAreOne }
{}
