//! Why an index is refused: the codes beside those of fields.

/// A name has the form of an encoded one.
pub const TAKEN_NAME: u16 = 707;
