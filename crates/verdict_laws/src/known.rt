//! Laws of known rows.

ghost use Rattle.verdict_laws.specs.Families.{KnownArePossible, UnionsKeep, UnionOfTwoKeeps, GreatestIsOne, InitialRowsAreGreatest};
ghost use Rattle.verdict_laws.specs.Greatest.{GreatestRowsAreGreatest, SettledRowsKeep};

/// Rows that keep to the inclusions have only what may be in the archive at each place.
pub fn known_are_possible()
    ensures { KnownArePossible }
{}

/// A union of any families that keep to the inclusions keeps to them.
pub fn unions_keep()
    ensures { UnionsKeep }
{}

/// The union of two families that keep to the inclusions keeps to them.
pub fn union_of_two_keeps()
    ensures { UnionOfTwoKeeps }
{}

/// Rows of variants of the universe keep to the inclusions where a test of each of them passes.
pub fn settled_rows_keep()
    ensures { SettledRowsKeep }
{}

/// There is a greatest family: it is left where all that the inclusions do not allow is taken away
/// from all that may be in the archive.
pub fn greatest_rows_are_greatest()
    ensures { GreatestRowsAreGreatest }
{}

/// Two greatest families have the same at each place of the plan.
pub fn greatest_is_one()
    ensures { GreatestIsOne }
{}

/// Where no lane waits, publishes or takes a branch, the greatest known rows are the initial
/// archive at each place.
pub fn initial_rows_are_greatest()
    ensures { InitialRowsAreGreatest }
{}
