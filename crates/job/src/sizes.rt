//! How large a job is.
ghost use Rattle.std.specs.Prelude.{◌≡◌};
ghost use Rattle.duality.specs.Tests.{many_within};
ghost use Rattle.job.specs.Numbers.{problem_of};

use crate::numbers::Job;
use terms::many_within;

impl Job {
    /// How many ropes there are.
    pub fn ropes(&self) -> usize
        ensures { result ≡ (problem_of self.now).ropes }
    {
        self.terms.ropes()
    }

    /// How many rows there are.
    pub fn rows(&self) -> usize
        ensures { result ≡ (problem_of self.now).rows }
    {
        self.terms.rows()
    }

    /// Whether z has a number for each rope, within ±limit.
    pub(crate) fn is_point(&self, limit: u64, z: &[i64]) -> bool
        ensures { result ≡ many_within (problem_of self.now).ropes limit z.now }
    {
        many_within(self.ropes(), limit, z)
    }
}
