//! The numbers of the application threads and their calls, as `specs/Limits.antt` has them.

/// How many application threads there are.
pub const CALLERS: u32 = 4;

/// The most calls that the application threads make, all together.
pub const MOST_CALLS: usize = 1024;
