//! Who hears how far the reading of indexes has come.

/// Hears how far the reading of indexes has come. What it does with that is no part of any promise.
pub trait Watch {
    /// So many of so many paragraphs of the index of a name are read.
    fn reads(&mut self, name: &str, done: usize, whole: usize);
}
