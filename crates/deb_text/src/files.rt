//! The numbers of the texts, as faults tell them.

/// The packages text.
pub const PACKAGES: u8 = 1;

/// The sources text.
pub const SOURCES: u8 = 2;

/// The farm text.
pub const FARM: u8 = 3;

/// The plan text.
pub const PLAN: u8 = 4;
