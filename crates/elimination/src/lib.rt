//! Dense systems of linear equations in f64.
//!
//! Every answer is, operation by operation, what specs/ defines over the rounded operations of binary64, so that it can be compared bit for bit with another program's.
//! A system of n unknowns stands in the first places of a square of 32 lines: line i has n coefficients and then its right side.
#![tactic(auto)]

mod columns;
mod pivots;
mod rounding;
mod squares;
mod systems;
mod unknowns;

pub use pivots::{LARGEST, Pivot};
pub use rounding::nearest;
pub use squares::{LINE_PLACES, MOST_UNKNOWNS};
pub use systems::{Solution, solve};
