//! Moves: one rope by one size, up or down.
ghost use Rattle.std.specs.Prelude.{◌≡◌, ℕ, ◌<◌, ◌≤◌, length, unsigned_abs};
ghost use Rattle.duality.specs.Lists.{places};
ghost use Rattle.job.specs.Numbers.{problem_of};

use job::Job;

#[derive(Clone, Copy)]
pub(crate) struct Move {
    pub(crate) rope: usize,
    /// The size, negative where the rope goes down.
    pub(crate) by: i64,
}

/// The sizes of moves, the largest first.
pub(crate) const SIZES: [i64; 15] = [
    16384, 8192, 4096, 2048, 1024, 512, 256, 128, 64, 32, 16, 8, 4, 2, 1,
];

/// A change of one of a job's ropes, no larger than the largest size.
#[derive(Clone, Copy)]
pub(crate) struct Shift<'a> {
    pub(crate) job: &'a Job,
    pub(crate) rope: usize,
    pub(crate) by: i64,
    ghost there: { rope < (problem_of job.now).ropes },
    ghost small: { unsigned_abs by ≤ 16384 },
}

impl Move {
    /// The move as a change of a job's rope.
    pub(crate) fn shift(self, job: &Job) -> Shift<'_>
        requires there { self.rope < (problem_of job.now).ropes }
        requires small { unsigned_abs self.by ≤ 16384 }
        ensures job { result.job.now ≡ job.now }
        ensures rope { result.rope ≡ self.rope }
        ensures by { result.by ≡ self.by }
    {
        Shift {
            job,
            rope: self.rope,
            by: self.by,
        }
    }
}

impl<'a> Shift<'a> {
    /// The weights of the rope in all rows.
    pub(crate) fn weights(self) -> &'a [i64]
        ensures long { length result.now ≡ (problem_of self.entry.job.now).rows }
        ensures are { (i : ℕ) → i < (problem_of self.entry.job.now).rows → places result.now i ≡ (problem_of self.entry.job.now).A i self.entry.rope }
    {
        let rows = self.job.rows();
        let start = self.rope * rows;
        &self.job.a[start..start + rows]
    }
}
