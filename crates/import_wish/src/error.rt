//! Why a paragraph of a wish is refused: the codes beside those of relation fields.

/// The name of a recipe or a chroot, or an output, stands a second time.
pub const TWICE: u16 = 203;

/// An item of the outputs is more than a name.
pub const UNKNOWN_OUTPUT: u16 = 205;

/// The source of a recipe is not one name, perhaps with a version.
pub const UNKNOWN_SOURCE: u16 = 206;

/// A list of outputs has no item.
pub const NO_OUTPUT: u16 = 208;

/// A list of targets has no item.
pub const NO_TARGET: u16 = 208;
