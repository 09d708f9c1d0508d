//! Why a plan refuses an offer or an amendment: the first reason, over tables of any kind.
#![tactic(auto)]

mod amends;
mod refuses;

pub use amends::amend_terms;
pub use refuses::{check_length, check_pair, check_point, check_proof};
