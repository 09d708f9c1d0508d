//! The exchange: a working set of rows and bounds, changed one member at a time, proposes points and multipliers.
//!
//! It computes in f64 and settles nothing: what it offers is judged in whole numbers by others.
#![tactic(auto)]

mod breaches;
mod choices;
mod exchanges;
mod members;
mod offers;
mod rounded;
mod rounds;
mod runs;
mod steps;
mod systems;
mod working;

pub use exchanges::Exchange;
pub use members::{Choice, End, Limit, Member, Offer, Report, Side, Step};
pub use runs::{end_after, run};
