//! Plans and refusals as text, in a list of bytes that the caller lends.
#![tactic(auto)]

mod plans;
mod refusals;

pub use plans::print_plan;
pub use refusals::print_refusal;
