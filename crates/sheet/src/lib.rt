//! Jobs to cards, and cards to jobs.
#![tactic(auto)]

mod card_job;
mod job_numbers;
mod loads;
mod numbers;
mod reads;
mod writes;

pub use card_job::CardJob;
pub use loads::load;
pub use reads::read_card;
pub use writes::write;
