//! Each row's sum, so that a try costs one pass over the rows.
ghost use Rattle.std.specs.Prelude.{◌≡◌, ℕ, ◌^◌, ◌≤◌, length, unsigned_abs};
ghost use Rattle.duality.specs.Lists.{places};
ghost use Rattle.job.specs.Bounds.{InBounds};
ghost use Rattle.job.specs.Numbers.{problem_of};
ghost use Rattle.terms.specs.Ticks.{excess as excess_of, Near};
ghost use Rattle.walk.specs.Running.{SumsAt, SmallSums, SumsShifted, outside_after, Raised};

use crate::moves::Shift;
use arrayvec::ArrayVec;
use job::Job;
use terms::MOST_ROWS;

/// What a point does to the rows.
#[derive(Drop)]
pub(crate) struct RowSums {
    /// Each row's sum.
    pub(crate) sums: ArrayVec<i64, MOST_ROWS>,
    /// The ticks outside all rows.
    pub(crate) outside: i64,
}

/// How many ticks s lies below low or above high. `terms::excess` holds to 64 bits at each difference: with it a try takes half as long again.
fn excess(low: i64, high: i64, s: i64) -> i64
    requires { Near low high s }
    ensures { result ≡ excess_of low high s }
{
    let under = low - s;
    let above = s - high;
    let most = under.max(above);
    0i64.max(most)
}

/// Each row's sum after a shift.
fn shift_sums(sums: &mut [i64], shift: Shift)
    requires long { length sums.old ≡ (problem_of shift.job.now).rows }
    requires sums_small { (i : ℕ) → unsigned_abs (places sums.old i) ≤ 2 ^ 41 }
    ensures { Raised sums.old sums.new (λ i. (problem_of shift.entry.job.now).A i shift.entry.rope) shift.entry.by }
{
    let weights = shift.weights();
    for (i, sum) in sums.iter_mut().enumerate() {
        *sum += weights[i] * shift.by;
    }
}

impl RowSums {
    /// The row sums at a point.
    pub(crate) fn at(job: &Job, z: &[i64]) -> RowSums
        requires { InBounds (problem_of job.now) z.now }
        ensures { SumsAt (problem_of job.now) z.now result }
    {
        let mut sums = ArrayVec::new();
        for i in 0..job.rows() {
            sums.push(job.row_sum(i, z).unwrap());
        }
        let outside = job.outside(z).unwrap();
        RowSums { sums, outside }
    }

    /// The ticks outside after a shift.
    pub(crate) fn outside_after(&self, shift: Shift) -> i64
        requires { SmallSums (problem_of shift.job.now) self.now }
        ensures { result ≡ outside_after (problem_of shift.entry.job.now) self.now shift.entry.rope shift.entry.by }
    {
        let lo = shift.job.terms.lo.as_slice();
        let hi = shift.job.terms.hi.as_slice();
        let weights = shift.weights();
        let mut total = 0i64;
        for (i, sum) in self.sums.iter().enumerate() {
            let s = *sum + weights[i] * shift.by;
            total += excess(lo[i], hi[i], s);
        }
        total
    }

    /// Follows a shift.
    pub(crate) fn shift(&mut self, shift: Shift)
        requires { SmallSums (problem_of shift.job.now) self.old }
        ensures { SumsShifted (problem_of shift.entry.job.now) self.old self.new shift.entry.rope shift.entry.by }
    {
        self.outside = self.outside_after(shift);
        shift_sums(&mut self.sums, shift);
    }
}
