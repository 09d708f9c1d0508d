//! The struct stands alone: definitions that name it can be cited from every other file.
ghost use Rattle.std.specs.Prelude.{◌≤◌, length};
ghost use Rattle.job.specs.Numbers.{problem_of};
ghost use Rattle.exchange.specs.Members.{Fitting};

use crate::members::Member;
use job::Job;

/// A working set beside its job: at most 16 members, each on a limit of the job.
#[derive(Clone, Copy)]
pub(crate) struct WorkingSet<'a> {
    pub(crate) job: &'a Job,
    pub(crate) members: &'a [Member],
    ghost few: { length members.now ≤ 16 },
    ghost fitting: { Fitting (problem_of job.now).ropes (problem_of job.now).rows members.now },
}
