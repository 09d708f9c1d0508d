//! What an offer comes to beside what is held.
ghost use Rattle.std.specs.Prelude.{◌≡◌, true};
ghost use Rattle.duality.specs.Lists.{places};
ghost use Rattle.duality.specs.Problem.{cost as cost_of};
ghost use Rattle.duality.specs.Tests.{many_within};
ghost use Rattle.terms.specs.Numbers.{ropes_of, rows_of};
ghost use Rattle.evaluate.specs.Stated.{problem_of};
ghost use Rattle.calls.specs.States.{floor_of};
ghost use Rattle.calls.specs.Refusing.{point_refusal, pair_refusal};
ghost use Rattle.calls.specs.Steps.{unless};
ghost use Rattle.plan.specs.Bettering.{below, above};
ghost use Rattle.plan.specs.View.{pair_of};

use evaluate::{Pair, Terms, cost, floor};
use opening::Refusal;
use reasons::{check_pair, check_point};
use table::Table;

/// The tables and terms that offers are judged by.
#[derive(Clone, Copy)]
pub(crate) struct Judge<'a, G, A> {
    pub(crate) g: &'a G,
    pub(crate) a: &'a A,
    pub(crate) terms: &'a Terms,
}

impl<'a, G: Table, A: Table> Judge<'a, G, A> {
    /// The cost of a point that fits.
    pub(crate) fn cost(&self, z: &[i64]) -> i64
        requires { many_within (ropes_of self.now.terms.now) 32768 z.now ≡ true }
        ensures { result ≡ cost_of (problem_of (G.Table.meant self.now.g.now) (A.Table.meant self.now.a.now) self.now.terms.now) (places z.now) }
    {
        cost(self.g, self.terms, z).unwrap()
    }

    /// The floor of a pair that fits.
    pub(crate) fn floor(&self, pair: Pair) -> i128
        requires point { many_within (ropes_of self.now.terms.now) 32768 pair.point.now ≡ true }
        requires multipliers { many_within (rows_of self.now.terms.now) 16777216 pair.multipliers.now ≡ true }
        ensures { result ≡ floor_of (problem_of (G.Table.meant self.now.g.now) (A.Table.meant self.now.a.now) self.now.terms.now) (pair_of pair.entry) }
    {
        floor(self.g, self.a, self.terms, pair).unwrap()
    }

    /// The cost of a point, if it is below that of the held one.
    pub(crate) fn better_cost(&self, held: Option<i64>, z: &[i64]) -> Result<Option<i64>, Refusal>
        ensures { result ≡ unless (point_refusal (problem_of (G.Table.meant self.now.g.now) (A.Table.meant self.now.a.now) self.now.terms.now) z.now)
            (below held (cost_of (problem_of (G.Table.meant self.now.g.now) (A.Table.meant self.now.a.now) self.now.terms.now) (places z.now))) }
    {
        check_point(self.a, self.terms, z)?;
        let cost = cost(self.g, self.terms, z).unwrap();
        match held {
            Some(held) => Ok((cost < held).then_some(cost)),
            None => Ok(Some(cost)),
        }
    }

    /// The floor of a pair, if it is above that of the held one.
    pub(crate) fn better_floor(&self, held: i128, pair: Pair) -> Result<Option<i128>, Refusal>
        ensures { result ≡ unless (pair_refusal (problem_of (G.Table.meant self.now.g.now) (A.Table.meant self.now.a.now) self.now.terms.now) (pair_of pair.entry))
            (above held (floor_of (problem_of (G.Table.meant self.now.g.now) (A.Table.meant self.now.a.now) self.now.terms.now) (pair_of pair.entry))) }
    {
        check_pair(self.terms, pair)?;
        let floor = floor(self.g, self.a, self.terms, pair).unwrap();
        Ok((held < floor).then_some(floor))
    }
}
