//! The system of linear equations that belongs to a working set.
ghost use Rattle.std.specs.Prelude.{◌≡◌, ℕ, ◌+◌, ◌<◌, ◌≤◌, map, length, take, neg_ℤ, unsigned_abs};
ghost use Rattle.std.specs.Float.{binary64};
ghost use Rattle.std.specs.Float.Ieee.{of_int};
ghost use Rattle.std.specs.List.{range_with_len};
ghost use Rattle.duality.specs.Lists.{places};
ghost use Rattle.job.specs.Numbers.{problem_of};
ghost use Rattle.elimination.specs.Lines.{seen};
ghost use Rattle.exchange.specs.Members.{Of, weight as weight_of, held_at};
ghost use Rattle.exchange.specs.Systems.{size_of, rope_line, member_line, floats, system_of};

use crate::members::{Limit, Member, Side};
use crate::working::WorkingSet;
use elimination::{LINE_PLACES, MOST_UNKNOWNS};
use job::Job;

/// A number as a float, by way of 32 bits, of which a processor makes one in one instruction.
fn float(x: i64) -> f64
    requires { unsigned_abs x ≤ 536870912 }
    ensures { result ≡ of_int binary64 x }
{
    f64::from(x as i32)
}

/// A number turned round, as a float.
fn minus(x: i64) -> f64
    requires { unsigned_abs x ≤ 536870912 }
    ensures { result ≡ of_int binary64 (neg_ℤ x) }
{
    f64::from(-x as i32)
}

/// Writes a run of numbers as floats.
fn write(line: &mut [f64], xs: &[i64])
    requires same { length line.old ≡ length xs.now }
    requires small { (k : ℕ) → k < length xs.now → unsigned_abs (places xs.now k) ≤ 536870912 }
    ensures { line.new ≡ floats xs.now }
{
    for (k, x) in line.iter_mut().enumerate() {
        *x = float(xs[k]);
    }
}

fn price(job: &Job, r: usize) -> i64
    requires { r < (problem_of job.now).ropes }
    ensures value { result ≡ (problem_of job.now).c r }
    ensures small { unsigned_abs result ≤ 536870912 }
{
    job.terms.c[r]
}

fn row_weight(job: &Job, i: usize, j: usize) -> i64
    requires row { i < (problem_of job.now).rows }
    requires rope { j < (problem_of job.now).ropes }
    ensures value { result ≡ (problem_of job.now).A i j }
    ensures small { unsigned_abs result ≤ 536870912 }
{
    job.a[j * job.rows() + i]
}

// Job and limit are passed side by side, because a struct of the two would be made anew for each entry.
fn weight(job: &Job, limit: Limit, j: usize) -> i64
    requires limit { Of (problem_of job.now).ropes (problem_of job.now).rows limit }
    requires rope { j < (problem_of job.now).ropes }
    ensures value { result ≡ weight_of (problem_of job.now) limit j }
    ensures small { unsigned_abs result ≤ 536870912 }
{
    match limit {
        Limit::Row(i) => row_weight(job, i, j),
        Limit::Bound(k) => { if k == j { 1 } else { 0 } }
    }
}

/// The number at which a member holds its limit.
pub(crate) fn held_at(job: &Job, member: Member) -> i64
    requires { Of (problem_of job.now).ropes (problem_of job.now).rows member.limit }
    ensures value { result ≡ held_at (problem_of job.now) member }
    ensures small { unsigned_abs result ≤ 536870912 }
{
    match (member.limit, member.side) {
        (Limit::Row(i), Side::Lower) => job.terms.lo[i],
        (Limit::Row(i), Side::Upper) => job.terms.hi[i],
        (Limit::Bound(j), Side::Lower) => job.terms.l[j],
        (Limit::Bound(j), Side::Upper) => job.terms.u[j],
    }
}

impl WorkingSet<'_> {
    /// How many unknowns there are.
    pub(crate) fn size(&self) -> usize
        ensures { result ≡ size_of (problem_of self.now.job.now) self.now.members.now }
    {
        self.job.ropes() + self.members.len()
    }

    /// The weight of each member at rope r, turned round.
    fn write_pushes(&self, line: &mut [f64], r: usize)
        requires rope { r < (problem_of self.now.job.now).ropes }
        requires all { length line.old ≡ length self.now.members.now }
        ensures { line.new ≡ floats (map (λ w. neg_ℤ (weight_of (problem_of self.now.job.now) w.limit r)) self.now.members.now) }
    {
        for (k, x) in line.iter_mut().enumerate() {
            *x = minus(weight(self.job, self.members[k].limit, r));
        }
    }

    fn write_rope_line(&self, line: &mut [f64], r: usize)
        requires rope { r < (problem_of self.now.job.now).ropes }
        requires all { length line.old ≡ size_of (problem_of self.now.job.now) self.now.members.now + 1 }
        ensures { line.new ≡ floats (rope_line (problem_of self.now.job.now) self.now.members.now r) }
    {
        let ropes = self.job.ropes();
        let (coefficients, rest) = line.split_at_mut(ropes);
        let (pushes, right) = rest.split_at_mut(self.members.len());
        write(coefficients, &self.job.g[r * ropes..(r + 1) * ropes]);
        self.write_pushes(pushes, r);
        right[0] = minus(price(self.job, r));
    }

    /// The weights of a limit, one for each rope.
    fn write_weights(&self, line: &mut [f64], limit: Limit)
        requires limit { Of (problem_of self.now.job.now).ropes (problem_of self.now.job.now).rows limit }
        requires all { length line.old ≡ (problem_of self.now.job.now).ropes }
        ensures { line.new ≡ floats (map (weight_of (problem_of self.now.job.now) limit) (range_with_len 0 (problem_of self.now.job.now).ropes)) }
    {
        for (j, x) in line.iter_mut().enumerate() {
            *x = float(weight(self.job, limit, j));
        }
    }

    fn write_member_line(&self, line: &mut [f64], member: Member)
        requires limit { Of (problem_of self.now.job.now).ropes (problem_of self.now.job.now).rows member.limit }
        requires all { length line.old ≡ size_of (problem_of self.now.job.now) self.now.members.now + 1 }
        ensures { line.new ≡ floats (member_line (problem_of self.now.job.now) self.now.members.now member) }
    {
        let (weights, rest) = line.split_at_mut(self.job.ropes());
        let (zeros, right) = rest.split_at_mut(self.members.len());
        self.write_weights(weights, member.limit);
        zeros.fill(0.0);
        right[0] = float(held_at(self.job, member));
    }

    fn write_rope_lines(&self, lines: &mut [[f64; LINE_PLACES]])
        requires { length lines.old ≡ (problem_of self.now.job.now).ropes }
        ensures { seen (size_of (problem_of self.now.job.now) self.now.members.now + 1) lines.new
            ≡ map (λ r. floats (rope_line (problem_of self.now.job.now) self.now.members.now r)) (range_with_len 0 (problem_of self.now.job.now).ropes) }
    {
        let width = self.size() + 1;
        for (r, line) in lines.iter_mut().enumerate() {
            self.write_rope_line(&mut line[0..width], r);
        }
    }

    fn write_member_lines(&self, lines: &mut [[f64; LINE_PLACES]])
        requires { length lines.old ≡ length self.now.members.now }
        ensures { seen (size_of (problem_of self.now.job.now) self.now.members.now + 1) lines.new
            ≡ map (λ w. floats (member_line (problem_of self.now.job.now) self.now.members.now w)) self.now.members.now }
    {
        let width = self.size() + 1;
        for (k, line) in lines.iter_mut().enumerate() {
            self.write_member_line(&mut line[0..width], self.members[k]);
        }
    }

    /// Writes the system of the working set into the first places of a square.
    pub(crate) fn fill_square(&self, lines: &mut [[f64; LINE_PLACES]; MOST_UNKNOWNS])
        ensures { seen (size_of (problem_of self.now.job.now) self.now.members.now + 1)
            (take (size_of (problem_of self.now.job.now) self.now.members.now) lines.new)
            ≡ system_of (problem_of self.now.job.now) self.now.members.now }
    {
        let (ropes, rest) = lines.split_at_mut(self.job.ropes());
        self.write_rope_lines(ropes);
        self.write_member_lines(&mut rest[..self.members.len()]);
    }
}
