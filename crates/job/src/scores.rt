//! What a point costs, and what it does to the rows.
ghost use Rattle.std.specs.Prelude.{◌≡◌, ◌<◌, true, ◌&&◌, IfSome, nat_lt};
ghost use Rattle.duality.specs.Lists.{places};
ghost use Rattle.duality.specs.Problem.{row_at, cost as cost_of};
ghost use Rattle.duality.specs.Sums.{row, column};
ghost use Rattle.job.specs.Numbers.{problem_of};
ghost use Rattle.job.specs.Points.{gradient as gradient_of, CostChange};
ghost use Rattle.duality.specs.Tests.{many_within, answer};
ghost use Rattle.job.specs.Rows.{outside as outside_of, MetInside};

use crate::numbers::Job;
use crate::sums::strided_dot;
use terms::{PULL_LIMIT, ROUNDED_LIMIT, excess};

impl Job {
    pub(crate) fn row_at(&self, i: usize, z: &[i64]) -> i64
        requires row { i < (problem_of self.now).rows }
        requires point { many_within (problem_of self.now).ropes 1073741824 z.now ≡ true }
        ensures { result ≡ row_at (problem_of self.now) (places z.now) i }
    {
        strided_dot(&self.a, i, self.rows(), z)
    }

    /// The sum along row i of G.
    fn along(&self, i: usize, z: &[i64]) -> i64
        requires rope { i < (problem_of self.now).ropes }
        requires point { many_within (problem_of self.now).ropes 32768 z.now ≡ true }
        ensures { result ≡ row (problem_of self.now).ropes (problem_of self.now).G (places z.now) i }
    {
        strided_dot(&self.g, i * self.ropes(), 1, z)
    }

    /// The sum down column j of G.
    fn across(&self, j: usize, z: &[i64]) -> i64
        requires rope { j < (problem_of self.now).ropes }
        requires point { many_within (problem_of self.now).ropes 32768 z.now ≡ true }
        ensures { result ≡ column (problem_of self.now).ropes (problem_of self.now).G (places z.now) j }
    {
        strided_dot(&self.g, j, self.ropes(), z)
    }

    /// Row i's sum at z; nothing without such a row, or where z has the wrong length or a number beyond ±1,073,741,824.
    pub fn row_sum(&self, i: usize, z: &[i64]) -> Option<i64>
        ensures { result ≡ answer (nat_lt i (problem_of self.now).rows && many_within (problem_of self.now).ropes 1073741824 z.now)
            (row_at (problem_of self.now) (places z.now) i) }
    {
        if i < self.rows() && self.is_point(ROUNDED_LIMIT, z) {
            Some(self.row_at(i, z))
        } else {
            None
        }
    }

    /// How steeply the cost rises with rope j at z: a step d of that rope changes the cost by d (gradient + G_jj d).
    ///
    /// Nothing without such a rope, or where z is no point within ±32,768.
    pub fn gradient(&self, j: usize, z: &[i64]) -> Option<i64>
        ensures value { result ≡ answer (nat_lt j (problem_of self.now).ropes && many_within (problem_of self.now).ropes 32768 z.now)
            (gradient_of (problem_of self.now) (places z.now) j) }
        ensures law { IfSome result (λ g. CostChange (problem_of self.now) (places z.now) j g) }
    {
        if j < self.ropes() && self.is_point(PULL_LIMIT, z) {
            Some(self.along(j, z) + self.across(j, z) + 2 * self.terms.c[j])
        } else {
            None
        }
    }

    /// The cost of z; nothing where z is no point within ±32,768.
    pub fn cost(&self, z: &[i64]) -> Option<i64>
        ensures { result ≡ answer (many_within (problem_of self.now).ropes 32768 z.now) (cost_of (problem_of self.now) (places z.now)) }
    {
        if !self.is_point(PULL_LIMIT, z) {
            return None;
        }
        let mut total = 0i64;
        for (i, x) in z.iter().enumerate() {
            total += *x * (self.along(i, z) + 2 * self.terms.c[i]);
        }
        Some(total)
    }

    /// The ticks that z lies outside all rows, summed: 0 exactly if it meets every row. Nothing where z is no point within ±32,768.
    pub fn outside(&self, z: &[i64]) -> Option<i64>
        ensures value { result ≡ answer (many_within (problem_of self.now).ropes 32768 z.now) (outside_of (problem_of self.now) (places z.now)) }
        ensures met { IfSome result (λ o. MetInside (problem_of self.now) (places z.now) o) }
    {
        if !self.is_point(PULL_LIMIT, z) {
            return None;
        }
        let mut total = 0i64;
        for (i, lo) in self.terms.lo.iter().enumerate() {
            total += excess(*lo, self.terms.hi[i], self.row_at(i, z));
        }
        Some(total)
    }
}
