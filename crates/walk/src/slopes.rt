//! The cost's gradient, so that what a move does to the cost is a matter of one rope.
ghost use Rattle.std.specs.Prelude.{◌≡◌, ℕ, ◌^◌, ◌≤◌, length, ◌+ℤ◌, unsigned_abs};
ghost use Rattle.duality.specs.Lists.{places};
ghost use Rattle.job.specs.Bounds.{InBounds};
ghost use Rattle.job.specs.Numbers.{problem_of};
ghost use Rattle.walk.specs.Running.{SlopesAt, SmallSlopes, SlopesShifted, gain_of, gain_after, Raised};

use crate::moves::Shift;
use arrayvec::ArrayVec;
use job::Job;
use terms::MOST_ROPES;

/// How steeply the cost rises with each rope.
#[derive(Drop)]
pub(crate) struct Slopes {
    pub(crate) slopes: ArrayVec<i64, MOST_ROPES>,
}

fn gain(slope: i64, curve: i64, d: i64) -> i64
    requires slope { unsigned_abs slope ≤ 2 ^ 41 }
    requires curve { unsigned_abs curve ≤ 1048576 }
    requires d { unsigned_abs d ≤ 16384 }
    ensures { result ≡ gain_of slope curve d }
{
    d * (slope + curve * d)
}

/// The gradient after a shift: G counts by its row and by its column.
fn shift_slopes(slopes: &mut [i64], shift: Shift)
    requires long { length slopes.old ≡ (problem_of shift.job.now).ropes }
    requires slopes_small { (i : ℕ) → unsigned_abs (places slopes.old i) ≤ 2 ^ 41 }
    ensures { Raised slopes.old slopes.new
        (λ i. (problem_of shift.entry.job.now).G i shift.entry.rope +ℤ (problem_of shift.entry.job.now).G shift.entry.rope i) shift.entry.by }
{
    let Shift { job, rope, by } = shift;
    let ropes = job.ropes();
    let g = job.g.as_slice();
    for (i, slope) in slopes.iter_mut().enumerate() {
        let w = g[i * ropes + rope] + g[rope * ropes + i];
        *slope += w * by;
    }
}

impl Slopes {
    /// The gradient at a point.
    pub(crate) fn at(job: &Job, z: &[i64]) -> Slopes
        requires { InBounds (problem_of job.now) z.now }
        ensures { SlopesAt (problem_of job.now) z.now result }
    {
        let mut slopes = ArrayVec::new();
        for k in 0..job.ropes() {
            slopes.push(job.gradient(k, z).unwrap());
        }
        Slopes { slopes }
    }

    /// What a shift adds to the cost.
    pub(crate) fn gain_after(&self, shift: Shift) -> i64
        requires { SmallSlopes (problem_of shift.job.now) self.now }
        ensures { result ≡ gain_after (problem_of shift.entry.job.now) self.now shift.entry.rope shift.entry.by }
    {
        let Shift { job, rope, by } = shift;
        gain(self.slopes[rope], job.g[rope * job.ropes() + rope], by)
    }

    /// Follows a shift.
    pub(crate) fn shift(&mut self, shift: Shift)
        requires { SmallSlopes (problem_of shift.job.now) self.old }
        ensures { SlopesShifted (problem_of shift.entry.job.now) self.old self.new shift.entry.rope shift.entry.by }
    {
        shift_slopes(&mut self.slopes, shift);
    }
}
