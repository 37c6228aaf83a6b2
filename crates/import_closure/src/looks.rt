//! What is known of a block.

/// What is known of a block: nothing yet; that its paragraph cannot be read; that an earlier one of
/// its name has its version; or which of the packages that were read it is.
#[derive(Clone, Copy, Debug, PartialEq, Eq)]
pub enum Look {
    Unseen,
    Unreadable,
    Shadowed,
    Kept(u32),
}

/// Which paragraph cannot be read: the number of its block, and why.
#[derive(Clone, Copy, Debug, PartialEq, Eq)]
pub struct Unreadable {
    pub number: u32,
    pub code: u16,
}
