//! What a plan computes over its two tables of any kind: each answer is that of the problem which the tables and the terms state.
//!
//! A blank of a table counts as 0, so nothing is asked of the tables; `problem_of` in specs/ says which problem it is.
//! What one table alone decides takes that table alone, so that its answer holds whatever the other one is.
#![tactic(auto)]

mod bounds;
mod costs;
mod floors;
mod multipliers;
mod pair;
mod refutations;
mod rows;
mod sums;
mod wide;

pub use bounds::check_bounds;
pub use costs::cost;
pub use floors::floor;
pub use pair::Pair;
pub use refutations::refutes;
pub use rows::{check_rows, is_feasible};
pub use terms::{Terms, Unmet};
