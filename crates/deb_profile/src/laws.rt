//! What reduction keeps, each as the contract of a function that does nothing.

ghost use Rattle.deb_profile.specs.Laws.{ReductionIsFinal};

/// An entry that was reduced for an architecture is left by a further reduction for the same one.
pub fn reduction_is_final()
    ensures { ReductionIsFinal }
{}
