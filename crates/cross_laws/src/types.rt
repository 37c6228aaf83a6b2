//! The small types that definitions and code share.

/// One of the two architectures of a cross build.
#[derive(Clone, Copy, PartialEq, Eq)]
pub enum Side {
    /// The architecture on which is built.
    Build,
    /// The architecture for which is built.
    Host,
}

/// What a paragraph has as its architecture.
#[derive(Clone, Copy, PartialEq, Eq)]
pub enum Architecture {
    /// `all`: the package is the same for each architecture.
    All,
    /// The name of a side.
    Of(Side),
}

/// The value of the field Multi-Arch (deb-control).
#[derive(Clone, Copy, PartialEq, Eq)]
pub enum MultiArch {
    /// `no`, as where the field is absent.
    No,
    /// `same`: packages of two architectures may be there together.
    Same,
    /// `foreign`: the package serves those of other architectures too.
    Foreign,
    /// `allowed`: it serves those that ask for `:any`.
    Allowed,
}
