//! Why a text is no control data: the codes, and the limit of a text.

/// A line begins with a blank, and its paragraph has no field that it continues.
pub const CONTINUES_NO_FIELD: u16 = 101;

/// A line has no colon.
pub const NO_COLON: u16 = 102;

/// What stands before the first colon of a line is no field name.
pub const BAD_FIELD_NAME: u16 = 103;

/// A paragraph has a field of that name, but for the case of ASCII letters.
pub const FIELD_TWICE: u16 = 104;

/// The text has more than [`MOST_BYTES`] bytes.
pub const TEXT_TOO_LONG: u16 = 105;

/// The most bytes that a text has.
pub const MOST_BYTES: usize = 67_108_864;
