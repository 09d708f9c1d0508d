//! How many ropes and rows a problem has, and how far its numbers may lie from 0.

/// The most ropes.
pub const MOST_ROPES: usize = 16;

/// The most rows.
pub const MOST_ROWS: usize = 32;

/// The most numbers of G, and of a slip: a number for each two ropes.
pub const MOST_SQUARE: usize = MOST_ROPES * MOST_ROPES;

/// The most numbers of A: a number for each rope in each row.
pub const MOST_WEIGHTS: usize = MOST_ROWS * MOST_ROPES;

/// Numbers of a matrix.
pub const PLACE_LIMIT: u64 = 1_048_576;

/// Linear costs.
pub const PRICE_LIMIT: u64 = 268_435_456;

/// Limits of rows.
pub const ROW_LIMIT: u64 = 536_870_912;

/// Bounds of ropes, and points whose cost is asked for.
pub const PULL_LIMIT: u64 = 32_768;

/// Points whose row sums are asked for: rounded ones may lie far outside.
pub const ROUNDED_LIMIT: u64 = 1_073_741_824;

/// Multipliers of rows.
pub const MULTIPLIER_LIMIT: u64 = 16_777_216;
