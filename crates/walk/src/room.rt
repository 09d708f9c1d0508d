//! What a walk keeps beside its point.
ghost use Rattle.std.specs.Prelude.{◌≡◌, pos};
ghost use Rattle.job.specs.Bounds.{InBounds};
ghost use Rattle.job.specs.Numbers.{problem_of};
ghost use Rattle.walk.specs.Lowering.{lower as lower_of};
ghost use Rattle.walk.specs.Running.{Tracks, Tame, Movable, looks_lower, Shifted};

use crate::moves::{Move, Shift};
use crate::slopes::Slopes;
use crate::sums::RowSums;
use job::Job;

/// The job that a walk is on, and the running sums at its point.
#[derive(Drop)]
pub(crate) struct Room<'a> {
    pub(crate) job: &'a Job,
    pub(crate) rows: RowSums,
    pub(crate) cost: Slopes,
}

/// Whether fewer ticks lie outside than before, or as many while the cost changes by less than 0.
fn lower(before: i64, after: i64, by: i64) -> bool
    ensures { result ≡ lower_of before (pos 0) after by }
{
    after < before || (after == before && by < 0)
}

impl<'a> Room<'a> {
    pub(crate) fn at(job: &'a Job, z: &[i64]) -> Room<'a>
        requires { InBounds (problem_of job.now) z.now }
        ensures job { result.job.now ≡ job.now }
        ensures tracks { Tracks job.now z.now result }
    {
        Room {
            job,
            rows: RowSums::at(job, z),
            cost: Slopes::at(job, z),
        }
    }

    /// Follows a move that was made.
    pub(crate) fn shift(&mut self, m: Move)
        requires tame { Tame self.old.job.now self.old }
        requires movable { Movable self.old.job.now m }
        ensures job { self.new.job.now ≡ self.old.job.now }
        ensures sums { Shifted self.old.job.now self.old self.new m }
    {
        let shift = m.shift(self.job);
        self.rows.shift(shift);
        self.cost.shift(shift);
    }

    /// Whether a move lowers. Where every row is met and the cost does not fall, no row need be looked at.
    pub(crate) fn lowers(&self, m: Move) -> bool
        requires tame { Tame self.now.job.now self.now }
        requires movable { Movable self.now.job.now m }
        ensures { result ≡ looks_lower self.now.job.now self.now m }
    {
        let shift = m.shift(self.job);
        let gain = self.cost.gain_after(shift);
        if self.rows.outside == 0 && gain >= 0 {
            return false;
        }
        let after = self.rows.outside_after(shift);
        lower(self.rows.outside, after, gain)
    }
}
