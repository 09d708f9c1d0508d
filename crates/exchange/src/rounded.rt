//! The struct stands alone: definitions that name it can be cited from every other file.
ghost use Rattle.std.specs.Prelude.{◌≡◌, true, length};
ghost use Rattle.job.specs.Numbers.{problem_of};
ghost use Rattle.duality.specs.Tests.{many_within};

use crate::working::WorkingSet;

/// A working set's solution in whole numbers: a pull for each rope of the job, and a pressure for each member.
#[derive(Clone, Copy)]
pub(crate) struct Rounded<'a> {
    pub(crate) set: WorkingSet<'a>,
    pub(crate) pulls: &'a [i64],
    pub(crate) pressures: &'a [i64],
    ghost point: { many_within (problem_of set.job.now).ropes 1073741824 pulls.now ≡ true },
    ghost paired: { length pressures.now ≡ length set.members.now },
}
