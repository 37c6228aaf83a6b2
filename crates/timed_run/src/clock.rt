//! Where a lane stands in time.

/// Where a lane stands in time, in steps from the beginning of the run.
#[derive(Clone, Copy, Debug, PartialEq, Eq)]
pub struct Clock {
    /// When the last event of the lane ended, or when the lane was first free where it has none.
    pub free: u128,
    /// When the next event begins, if the lane is awake.
    pub next: u128,
    /// The lane was not found waiting, or finished, since the last output.
    pub awake: bool,
}
