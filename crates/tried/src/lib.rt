//! Cases that were tried by hand, as one table and one theorem.
//!
//! The table stands in specs/Cases.antt: a job, the calls that are made on it, and what they answer.
#![tactic(auto)]

ghost use Rattle.std.specs.Prelude.{◌≡◌, length};
ghost use Rattle.tried.specs.Cases.{cases, AllHold};

/// How many cases the table has. Each of them holds: the definitions give what the table says.
pub fn tried_cases() -> usize
    ensures hold { AllHold cases }
    ensures count { result ≡ length cases }
{
    10
}
