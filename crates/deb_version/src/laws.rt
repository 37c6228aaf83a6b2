//! What the order keeps, each as the contract of a function that does nothing.

ghost use Rattle.std.specs.Cmp.{IsTotalOrder};
ghost use Rattle.deb_version.specs.Grammar.{text_cmp};
ghost use Rattle.deb_version.specs.Laws.{CutsIntoRuns, PolicyExample, TiesMeanSame, WorkedExamples};

/// The order is total, up to versions that are equal.
pub fn order_is_total()
    ensures { IsTotalOrder text_cmp }
{}

/// Versions are equal exactly where they mean the same.
pub fn ties_mean_same()
    ensures { TiesMeanSame }
{}

/// A part is cut into words and digits in turn, each as long as it goes.
pub fn parts_are_runs()
    ensures { CutsIntoRuns }
{}

/// The examples of Debian Policy 5.6.12, and others of whole versions.
pub fn examples_are_in_order()
    ensures policy { PolicyExample }
    ensures worked { WorkedExamples }
{}
