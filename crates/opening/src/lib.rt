//! What a plan refuses, and the check of what a plan is to be opened from.
#![tactic(auto)]

mod listed;
mod lists;
mod opening;
mod refusal;
mod slip;
mod tables;

pub use block::{Fault, Layer, Notice};
pub use lists::Lists;
pub use opening::check_opening;
pub use refusal::{List, Refusal};

#[cfg(test)]
mod tests;
