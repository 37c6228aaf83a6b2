//! Who hears how far a draft has come.

/// Hears how far a draft has come. What it does with that is no part of any promise.
pub trait Watch {
    /// So many of so many builds are placed. It is called ahead of each, and again from the first
    /// one on where recipes are left out.
    fn places(&self, done: usize, whole: usize);

    /// No more builds are placed.
    fn ends(&self);
}
