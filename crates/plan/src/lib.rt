//! A plan: a problem that is known to be sound, and the best that has been offered for it so far.
//!
//! Anyone may offer points, pairs and proofs of none. A plan judges them in whole numbers, keeps the best, and shows what they prove.
#![tactic(auto)]

mod amends;
mod bests;
mod evaluates;
mod founds;
mod judges;
mod offers;
mod opens;
mod shows;
mod sizes;
mod solves;
mod state;

pub use calls::{Amendment, Dropped, Found, Report, Shown, Verdict};
pub use evaluate::Pair;
pub use opening::{Lists, Refusal};
pub use state::Plan;
