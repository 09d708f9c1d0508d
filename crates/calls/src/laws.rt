//! The law of whole histories, which the proofs of the crates above cite.
ghost use Rattle.calls.specs.Honesty.{AlwaysLawful};
ghost use Rattle.calls.specs.Fairness.{OpensFair, FairlyLawful};
ghost use Rattle.calls.specs.Runs.{RunsCompose};

/// Whatever opening and whatever calls led to a plan, refused ones included, what it holds is lawful, and it never holds a point together with a proof of none.
///
/// So it is whatever calls are made on a fair plan, as every newly opened one is.
pub fn held_is_lawful()
    ensures lawful { AlwaysLawful }
    ensures fairly { FairlyLawful }
    ensures opens { OpensFair }
{}

/// Two runs of calls on one plan answer and leave what the one run of all their calls does.
pub fn runs_compose()
    ensures { RunsCompose }
{}
