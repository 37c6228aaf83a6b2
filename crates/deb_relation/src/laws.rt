//! What reading and spelling keep, each as the contract of a function that does nothing.

ghost use Rattle.deb_relation.specs.Laws.{AlternativesAreReadAgain, EntriesAreReadAgain};

/// An alternative of a Depends field that was read is read again from its spelling.
pub fn alternatives_are_read_again()
    ensures { AlternativesAreReadAgain }
{}

/// An entry of a Depends field that was read is read again from its spelling.
pub fn entries_are_read_again()
    ensures { EntriesAreReadAgain }
{}
