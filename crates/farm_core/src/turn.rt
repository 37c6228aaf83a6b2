//! What a lane does at its turn.

use farm_universe::{Trap, Variant};

/// What a lane does at its turn. It has changed where it goes or gives, and is as it was otherwise.
#[derive(Clone, Copy, PartialEq, Eq)]
pub enum Turn {
    /// It is behind its instruction.
    Goes,
    /// It has made this output of a publish.
    Gives(Variant),
    /// It waits for the archive.
    Waits,
    /// It has no instruction left.
    Ends,
    /// Its instruction meets this trap.
    Fails(Trap),
}
