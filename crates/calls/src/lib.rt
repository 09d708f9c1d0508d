//! What the calls of a plan answer and leave, as definitions, and the law that any sequence of them keeps.
//!
//! The code of a plan stands in the crate above; here are the answers that it gives, and in specs/ what they mean.
#![tactic(auto)]

mod answers;
mod laws;

pub use answers::{Amendment, Dropped, Found, Report, Shown, Verdict};
