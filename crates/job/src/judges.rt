//! Which row a point breaks.
ghost use Rattle.std.specs.Prelude.{◌≡◌, cond};
ghost use Rattle.duality.specs.Lists.{places};
ghost use Rattle.job.specs.Numbers.{problem_of};
ghost use Rattle.duality.specs.Tests.{many_within};
ghost use Rattle.job.specs.Rows.{judged, Judges};

use crate::numbers::Job;
use terms::{ROUNDED_LIMIT, Unmet, between};

impl Job {
    /// Whether z meets every row, or else the first that it breaks; it must be a list of as many numbers as there are ropes, within ±1,073,741,824.
    pub fn judge(&self, z: &[i64]) -> Result<(), Unmet>
        ensures value { result ≡ cond (many_within (problem_of self.now).ropes 1073741824 z.now)
            (judged (problem_of self.now) (places z.now)) (Err Unmet.NoPoint) }
        ensures law { Judges (problem_of self.now) (places z.now) result }
    {
        if !self.is_point(ROUNDED_LIMIT, z) {
            return Err(Unmet::NoPoint);
        }
        for (i, lo) in self.terms.lo.iter().enumerate() {
            if !between(*lo, self.terms.hi[i], self.row_at(i, z)) {
                return Err(Unmet::At(i));
            }
        }
        Ok(())
    }
}
