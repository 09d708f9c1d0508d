//! Tables of whole numbers: what a table is asked, a table by records, and layers over any kind of table.
#![tactic(auto)]

mod interface;
mod layers;
mod lent;
mod limits;
mod line;
mod triplets;

pub use interface::Table;
pub use layers::{Flip, Sum, column_product};
pub use limits::{SIZE_LIMIT, cut_size, limit_number};
pub use terms::{PLACE_LIMIT, ROUNDED_LIMIT as FACTOR_LIMIT};
pub use triplets::{Record, Triplets};

#[cfg(test)]
mod tests;
