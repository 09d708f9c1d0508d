//! How far a point lies outside the limits.
ghost use Rattle.std.specs.Prelude.{◌≡◌, ◌^◌, ◌<◌, ◌≤◌, unsigned_abs};
ghost use Rattle.job.specs.Numbers.{problem_of};
ghost use Rattle.exchange.specs.Members.{Of};
ghost use Rattle.exchange.specs.Breaches.{holds as holds_of, value_at, breach as breach_of, worse as worse_of, worst as worst_of};

use crate::members::{Breach, Limit, Member, Side};
use crate::rounded::Rounded;
use crate::systems::held_at;
use crate::working::WorkingSet;
use terms::excess;

impl WorkingSet<'_> {
    /// Whether a limit is held, on either side.
    fn holds(&self, limit: Limit) -> bool
        ensures { result ≡ holds_of self.now.members.now limit }
    {
        self.members.iter().any(|member| member.limit == limit)
    }
}

impl Rounded<'_> {
    fn value_at(&self, limit: Limit) -> i64
        requires { Of (problem_of self.now.set.job.now).ropes (problem_of self.now.set.job.now).rows limit }
        ensures value { result ≡ value_at (problem_of self.now.set.job.now) self.now.pulls.now limit }
        ensures small { unsigned_abs result ≤ 2 ^ 54 }
    {
        match limit {
            Limit::Row(i) => self.set.job.row_sum(i, self.pulls).unwrap(),
            Limit::Bound(j) => self.pulls[j],
        }
    }

    fn breach(&self, limit: Limit) -> Breach
        requires { Of (problem_of self.now.set.job.now).ropes (problem_of self.now.set.job.now).rows limit }
        ensures { result ≡ breach_of (problem_of self.now.set.job.now) self.now.pulls.now limit }
    {
        let lower = held_at(
            self.set.job,
            Member {
                limit,
                side: Side::Lower,
            },
        );
        let upper = held_at(
            self.set.job,
            Member {
                limit,
                side: Side::Upper,
            },
        );
        let s = self.value_at(limit);
        let side = if s < lower { Side::Lower } else { Side::Upper };
        Breach {
            ticks: excess(lower, upper, s),
            member: Member { limit, side },
        }
    }

    fn worse(&self, best: Breach, limit: Limit) -> Breach
        requires { Of (problem_of self.now.set.job.now).ropes (problem_of self.now.set.job.now).rows limit }
        ensures { result ≡ worse_of (problem_of self.now.set.job.now) self.now.set.members.now self.now.pulls.now best limit }
    {
        let other = self.breach(limit);
        // Few limits are worse than the worst so far, so that the members are seldom asked.
        if other.ticks > best.ticks && !self.set.holds(limit) {
            other
        } else {
            best
        }
    }

    /// The limit that the point breaks most, among those that are not held: rows before bounds at a draw.
    pub(crate) fn worst(&self) -> Breach
        ensures { result ≡ worst_of (problem_of self.now.set.job.now) self.now.set.members.now self.now.pulls.now }
    {
        let mut best = Breach {
            ticks: 0,
            member: Member::default(),
        };
        for i in 0..self.set.job.rows() {
            best = self.worse(best, Limit::Row(i));
        }
        for j in 0..self.set.job.ropes() {
            best = self.worse(best, Limit::Bound(j));
        }
        best
    }
}
