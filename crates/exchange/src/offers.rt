//! What a step offers.
ghost use Rattle.std.specs.Prelude.{◌≡◌, ℕ, ◌+◌, ◌≤◌, ◌++◌, map, length, take, drop};
ghost use Rattle.std.specs.List.{range_with_len};
ghost use Rattle.job.specs.Numbers.{problem_of};
ghost use Rattle.exchange.specs.Offers.{filled, inside_bounds, inside_limit, pressure_of, multipliers as multipliers_of};

use crate::members::Limit;
use crate::rounded::Rounded;
use job::Job;
use terms::{MOST_ROPES, MOST_ROWS, MULTIPLIER_LIMIT};

const LIMIT: i64 = MULTIPLIER_LIMIT as i64;

/// The pulls held inside the bounds.
pub(crate) fn point_of(job: &Job, mut pulls: [i64; MOST_ROPES]) -> [i64; MOST_ROPES]
    ensures { result ≡ inside_bounds (problem_of job.now) (take (problem_of job.now).ropes pulls) ++ drop (problem_of job.now).ropes pulls }
{
    // The part has a number for each rope, so that `clamp` does not refuse it.
    let held = job.clamp(&mut pulls[0..job.ropes()]);
    prove!(held);
    pulls
}

fn inside_limit(pressure: i64) -> i64
    ensures { result ≡ inside_limit pressure }
{
    pressure.clamp(-LIMIT, LIMIT)
}

impl Rounded<'_> {
    /// The multiplier of the member that holds a limit, or 0.
    fn pressure_of(&self, limit: Limit) -> i64
        ensures { result ≡ pressure_of self.now.set.members.now self.now.pressures.now limit }
    {
        for (member, pressure) in self.set.members.iter().zip(self.pressures) {
            if member.limit == limit {
                return inside_limit(*pressure);
            }
        }
        0
    }

    fn fill_multipliers(&self, multipliers: &mut [i64])
        ensures { multipliers.new ≡ map (λ i. pressure_of self.now.set.members.now self.now.pressures.now (Limit.Row i)) (range_with_len 0 (length multipliers.old)) }
    {
        for (i, multiplier) in multipliers.iter_mut().enumerate() {
            *multiplier = self.pressure_of(Limit::Row(i));
        }
    }

    /// A multiplier for each row of the job.
    pub(crate) fn multipliers(&self) -> [i64; MOST_ROWS]
        ensures { result ≡ filled 32 (multipliers_of (problem_of self.now.set.job.now) self.now.set.members.now self.now.pressures.now) }
    {
        let mut multipliers = [0; MOST_ROWS];
        self.fill_multipliers(&mut multipliers[0..self.set.job.rows()]);
        multipliers
    }
}
