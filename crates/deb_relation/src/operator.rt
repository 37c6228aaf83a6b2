//! The operators between versions.

/// How a version has to stand to the one in a relation (Debian Policy 7.1).
#[derive(Clone, Copy, PartialEq, Eq)]
pub enum Op {
    /// `<<`, strictly earlier.
    Earlier,
    /// `<=`, earlier or equal.
    EarlierOrEqual,
    /// `=`, exactly equal.
    Equal,
    /// `>=`, later or equal.
    LaterOrEqual,
    /// `>>`, strictly later.
    Later,
}
