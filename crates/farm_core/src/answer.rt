//! What a step of a lane comes to.

use farm_universe::Trap;

/// What a step of a lane comes to.
#[derive(Clone, Copy, PartialEq, Eq)]
pub enum Step {
    /// The lane has gone on by an instruction, or by an output of a publish.
    Moved,
    /// The lane waits for the archive.
    Blocked,
    /// The lane has no instruction left.
    Finished,
    /// The plan has no lane of this number.
    Unknown,
    /// The lane's instruction cannot be carried out.
    Trapped(Trap),
}
