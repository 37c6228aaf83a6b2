//! An event of a timed run.

use farm_model::Variant;

/// An event of a timed run: an instruction of a lane, or one output of a publish. Times are in
/// steps from the beginning of the run.
#[derive(Clone, Copy, Debug, PartialEq, Eq)]
pub struct Event {
    /// The number of the lane, 0 for the first.
    pub lane: usize,
    /// How many instructions of the lane stand before it.
    pub place: u32,
    /// When the event before it in its lane ended, for the first when the lane was first free. Until
    /// it begins the lane waits.
    pub free: u128,
    pub begin: u128,
    pub end: u128,
    /// What enters the archive when it ends.
    pub output: Option<Variant>,
}
