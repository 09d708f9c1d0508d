//! How large a system may be.

/// The most unknowns that a system has.
pub const MOST_UNKNOWNS: usize = 32;

/// How many places a line has: a coefficient for each unknown, and then the right side.
pub const LINE_PLACES: usize = MOST_UNKNOWNS + 1;
