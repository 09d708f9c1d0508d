//! The struct stands alone: definitions that name it can be cited from every other file.
ghost use Rattle.std.specs.Prelude.{◌≤◌, length};
ghost use Rattle.job.specs.Numbers.{problem_of};
ghost use Rattle.exchange.specs.Members.{Fitting};
ghost use Rattle.exchange.specs.Breaches.{Apart};

use crate::members::Member;
use arrayvec::ArrayVec;
use job::Job;
use terms::MOST_ROPES;

/// An exchange under way: its job, its working set in the order in which the members entered, and the smallest pivot so far.
///
/// The set never holds a limit twice, on one side or on both, and never has more members than there are ropes. It lies in places of a fixed size.
#[derive(Drop)]
pub struct Exchange<'a> {
    pub(crate) job: &'a Job,
    pub(crate) members: ArrayVec<Member, MOST_ROPES>,
    pub(crate) smallest: f64,
    ghost few: { length members.items ≤ (problem_of job.now).ropes },
    ghost fitting: { Fitting (problem_of job.now).ropes (problem_of job.now).rows members.items },
    ghost apart: { Apart members.items },
}
