//! How far a package is installed.

/// The phase of a name in a chroot.
#[derive(Clone, Copy, PartialEq, Eq)]
pub enum Phase {
    /// Nothing of the name is present.
    Absent,
    /// A variant is unpacked and not configured (the state "unpacked" of dpkg(1)).
    Unpacked,
    /// A variant is configured (the state "installed" of dpkg(1)).
    Configured,
}
