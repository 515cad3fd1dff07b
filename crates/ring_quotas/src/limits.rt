//! The numbers that a setup may have, as `specs/Limits.antt` has them.

/// The most squeues.
pub const MOST_SQUEUES: u32 = 16;

/// The most rings.
pub const MOST_RINGS: u32 = 8;

/// The greatest budget that words ask for and a report tells.
pub const MOST_BUDGET: u32 = 65_535;

/// After how many feeds a connection moves on, at most.
pub const MOST_SPREAD: u32 = 65_535;
