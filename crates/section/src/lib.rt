//! The sections of a job card: which there are, where each lies for a job's sizes, and its numbers, read in place.
#![tactic(auto)]

mod layout;
mod section;
mod sections;
mod sizes;

pub use block::Kind;
pub use layout::{blocks_for, count_of, first_of};
pub use section::Section;
pub use sections::spot_of;
pub use sizes::Sizes;
