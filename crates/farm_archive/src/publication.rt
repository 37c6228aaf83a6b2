//! A publication.

use farm_universe::Variant;

/// A variant that a lane has published.
#[derive(Clone, Copy, Debug, PartialEq, Eq)]
pub struct Publication {
    /// Its number among the publications, 0 for the first.
    pub serial: u64,
    /// The number of the lane.
    pub lane: u32,
    pub variant: Variant,
}
