//! Whole-tick descent: from a point inside its bounds, one rope at a time, as long as a move lowers.
//!
//! A move lowers if fewer ticks lie outside the rows, or as many at a lower cost. `walk` is the call; specs/ says what it does, step by step
//! and as a law of whole walks.
#![tactic(auto)]

mod ends;
mod guard;
mod moves;
mod room;
mod searches;
mod slopes;
mod sums;
mod tries;
mod walks;

pub use ends::{End, OutOfBounds, Walked};
pub use walks::walk;
