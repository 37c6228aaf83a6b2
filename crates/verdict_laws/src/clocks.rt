//! Laws of clocks: known rows as counts of each lane's outputs.

ghost use Rattle.verdict_laws.specs.Clocks.{ClocksKeepRows, OutputsAreUnique, RowsHaveClocks, GreatestClocksAreGreatest};

/// The rows of clocks that keep to the inclusions keep to them.
#[tactic(auto, using(crate::proofs::Sets::clocks_keep_rows))]
pub fn clocks_keep_rows()
    ensures { ClocksKeepRows }
{}

/// Rows that keep to the inclusions have clocks that do, and lie within the rows of those.
pub fn rows_have_clocks()
    ensures { RowsHaveClocks }
{}

/// Each output of a sound plan is made once, and is not there from the start.
pub fn outputs_are_unique()
    ensures { OutputsAreUnique }
{}

/// The greatest clocks have the greatest rows.
pub fn greatest_clocks_are_greatest()
    ensures { GreatestClocksAreGreatest }
{}
