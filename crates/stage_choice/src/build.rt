//! A build, as those see it that choose.

/// A build of a source. It can be made once builds before it give all that it needs.
#[derive(Drop)]
pub struct StagedBuild {
    /// The number of its source.
    pub source: u32,
    /// What it needs and what it gives: things by number, each once.
    pub needs: Vec<u32>,
    pub gives: Vec<u32>,
    /// Of choices with equally few dear builds the one with the least sum of weights is looked for.
    pub weight: u64,
    pub is_dear: bool,
}
