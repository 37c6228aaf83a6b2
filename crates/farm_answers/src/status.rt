//! The statuses of the program.

/// The texts were accepted, listed or certified, the schedule met no trap, or help was shown.
pub const FINE: u8 = 0;

/// The texts, the plan or its certificate were refused, or the schedule met a trap.
pub const REFUSED: u8 = 1;

/// The words are wrong, or the schedule is none.
pub const WRONG_WORDS: u8 = 2;

/// Something outside of the texts failed.
pub const OUTSIDE: u8 = 3;
