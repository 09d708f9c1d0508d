//! The floor that a point and multipliers show.
ghost use Rattle.std.specs.Prelude.{◌≡◌, ◌^◌, ◌<◌, ◌≤◌, true, ◌&&◌, IfSome, unsigned_abs};
ghost use Rattle.terms.specs.Numbers.{ropes_of, rows_of};
ghost use Rattle.duality.specs.Lists.{places};
ghost use Rattle.duality.specs.Floor.{residual as residual_of, floor as floor_of};
ghost use Rattle.table.specs.Grid.{Grid};
ghost use Rattle.evaluate.specs.Stated.{problem_of};
ghost use Rattle.duality.specs.Tests.{many_within, answer};
ghost use Rattle.evaluate.specs.Floors.{slack_of_rows, slack_of_ropes, Floors};

use crate::costs::cost;
use crate::multipliers::column_of;
use crate::pair::Pair;
use crate::sums::row_of;
use crate::wide::{furthest, left_of, less_slack};
use table::Table;
use terms::{MULTIPLIER_LIMIT, PULL_LIMIT, Terms, many_within};

/// A pair that fits the terms.
#[derive(Clone, Copy)]
struct Fitting<'a> {
    terms: &'a Terms,
    pair: Pair<'a>,
    ghost point_fits: { many_within (ropes_of terms.now) 32768 pair.point.now ≡ true },
    ghost weights_fit: { many_within (rows_of terms.now) 16777216 pair.multipliers.now ≡ true },
}

impl<'a> Fitting<'a> {
    /// What the multipliers leave of 256 times the slope at rope j.
    fn residual<T: Table, U: Table>(&self, g: &T, a: &U, j: usize) -> i64
        requires { j < ropes_of self.now.terms.now }
        ensures { result ≡ residual_of (problem_of (T.Table.meant g.now) (U.Table.meant a.now) self.now.terms.now)
            (places self.now.pair.point.now) (places self.now.pair.multipliers.now) j }
    {
        left_of(
            row_of(g, j, self.pair.point),
            self.terms.c[j],
            column_of(a, j, self.pair.multipliers),
        )
    }

    /// What the rows' limits let the multipliers lose.
    fn slack_of_rows<U: Table>(&self, a: &U) -> i128
        ensures { (g : Grid) → result ≡ slack_of_rows (problem_of g (U.Table.meant a.now) self.now.terms.now)
            (places self.now.pair.point.now) (places self.now.pair.multipliers.now) }
    {
        let terms = self.terms;
        let mut total = 0;
        for (i, weight) in self.pair.multipliers.iter().enumerate() {
            let sum = row_of(a, i, self.pair.point);
            total += furthest(*weight, sum, terms.lo[i], terms.hi[i]);
        }
        total
    }

    /// What the bounds let the residuals lose.
    fn slack_of_ropes<T: Table, U: Table>(&self, g: &T, a: &U) -> i128
        ensures { result ≡ slack_of_ropes (problem_of (T.Table.meant g.now) (U.Table.meant a.now) self.now.terms.now)
            (places self.now.pair.point.now) (places self.now.pair.multipliers.now) }
    {
        let terms = self.terms;
        let mut total = 0;
        for (j, x) in self.pair.point.iter().enumerate() {
            total += furthest(self.residual(g, a, j), *x, terms.l[j], terms.u[j]);
        }
        total
    }
}

/// The floor of the pair: under a convex cost, at most 256 times the cost of every feasible point.
///
/// Nothing where its point hasn't a number for each rope within ±32,768, or there isn't a multiplier for each row within ±16,777,216.
pub fn floor<T: Table, U: Table>(g: &T, a: &U, terms: &Terms, pair: Pair) -> Option<i128>
    ensures value { result ≡ answer (many_within (ropes_of terms.now) 32768 pair.entry.point.now && many_within (rows_of terms.now) 16777216 pair.entry.multipliers.now)
        (floor_of (problem_of (T.Table.meant g.now) (U.Table.meant a.now) terms.now) (places pair.entry.point.now) (places pair.entry.multipliers.now)) }
    ensures law { IfSome result (Floors (problem_of (T.Table.meant g.now) (U.Table.meant a.now) terms.now)) }
    ensures small { IfSome result (λ v. unsigned_abs v ≤ 2 ^ 122) }
{
    if !many_within(terms.ropes(), PULL_LIMIT, pair.point)
        || !many_within(terms.rows(), MULTIPLIER_LIMIT, pair.multipliers)
    {
        return None;
    }
    let price = cost(g, terms, pair.point)?;
    let fitting = Fitting { terms, pair };
    Some(less_slack(
        price,
        fitting.slack_of_rows(a) + fitting.slack_of_ropes(g, a),
    ))
}
