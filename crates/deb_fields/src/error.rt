//! Why a field is refused: the codes beside those of relation fields.

/// A field that has to stand is absent.
pub const ABSENT: u16 = 201;

/// A field has none of the values that it may have, or a number over its limit.
pub const BAD_VALUE: u16 = 202;
