//! The numbers of a problem beside its matrices, their limits, and the tests that the crates above share.
//!
//! Every function here is total: whatever it is handed, it answers what specs/ defines.
#![tactic(auto)]

mod checks;
mod fixed;
mod limits;
mod makes;
mod numbers;
mod ticks;
mod unmet;

pub use checks::{all_within, between, first_beyond, first_outside, in_order, many_within, within};
pub use fixed::placed;
pub use limits::{
    MOST_ROPES, MOST_ROWS, MOST_SQUARE, MOST_WEIGHTS, MULTIPLIER_LIMIT, PLACE_LIMIT, PRICE_LIMIT,
    PULL_LIMIT, ROUNDED_LIMIT, ROW_LIMIT,
};
pub use numbers::Terms;
pub use ticks::excess;
pub use unmet::Unmet;
