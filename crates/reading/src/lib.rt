//! Tables of any kind and the terms beside them, read once into a job of plain numbers, and those numbers as tables again.
#![tactic(auto)]

mod listing;
mod matrices;
mod reads;

pub use listing::Listing;
pub use matrices::{curvature, rows};
pub use reads::{numbers_in, read_job};
