//! A chain of two legs, worked out.

ghost use Rattle.leg_laws.specs.Continuation.{IsContinuation};
ghost use Rattle.leg_laws.specs.Example.{first, stopped, brought, withdrawn, lacking, repeating, IsWorkedOut};

/// libgmp is built, the run stops, and a farm of its own goes on and builds gcc.
pub fn two_legs()
    ensures { IsWorkedOut }
{}

/// A farm whose archive lacks what was published does not go on where the run has stopped, nor does
/// one that gives again what was withdrawn.
pub fn not_every_farm_goes_on()
    ensures lost { ¬ (IsContinuation first stopped brought withdrawn lacking) }
    ensures given_again { ¬ (IsContinuation first stopped brought withdrawn repeating) }
{}
