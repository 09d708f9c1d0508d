//! A job in plain numbers: what a solver works on once the tables have been read.
//!
//! A `Job` carries its limits with it, so that whoever holds one can compute in 64 bits and never overflow.
//! What its methods answer is defined by the problem that it stands for, `problem_of` in specs/.
#![tactic(auto)]

mod bounds;
mod judges;
mod makes;
mod numbers;
mod scores;
mod sizes;
mod sums;

pub use numbers::Job;
