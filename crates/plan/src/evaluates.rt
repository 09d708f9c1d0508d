//! What is computed of points and multipliers that are known to fit: there is always an answer.
ghost use Rattle.std.specs.Prelude.{◌≡◌, ◌^◌, ◌≤◌, true, length, pos, ◌-ℤ◌, ◌*ℤ◌, unsigned_abs};
ghost use Rattle.terms.specs.Numbers.{ropes_of, rows_of};
ghost use Rattle.std.specs.Option.{option_map};
ghost use Rattle.duality.specs.Lists.{places};
ghost use Rattle.duality.specs.Problem.{cost as cost_of};
ghost use Rattle.duality.specs.Tests.{many_within};
ghost use Rattle.calls.specs.States.{problem, floor_of};
ghost use Rattle.plan.specs.View.{pair_of, view};

use crate::state::Plan;
use arrayvec::ArrayVec;
use evaluate::{Pair, cost, floor};
use table::Table;
use terms::placed;

/// A copy of a list that is known to fit.
pub(crate) fn copied<const N: usize>(xs: &[i64]) -> ArrayVec<i64, N>
    requires { length xs.now ≤ N }
    ensures { result.items ≡ xs.now }
{
    placed(xs)
}

impl<G: Table, A: Table> Plan<G, A> {
    pub(crate) fn cost_of(&self, z: &[i64]) -> i64
        requires { many_within (ropes_of self.now.terms) 32768 z.now ≡ true }
        ensures { result ≡ cost_of (problem (view G.Table.meant A.Table.meant self.now)) (places z.now) }
    {
        cost(&self.g, &self.terms, z).unwrap()
    }

    pub(crate) fn floor_of(&self, pair: Pair) -> i128
        requires point { many_within (ropes_of self.now.terms) 32768 pair.point.now ≡ true }
        requires multipliers { many_within (rows_of self.now.terms) 16777216 pair.multipliers.now ≡ true }
        ensures value { result ≡ floor_of (problem (view G.Table.meant A.Table.meant self.now)) (pair_of pair.entry) }
        ensures small { unsigned_abs result ≤ 2 ^ 122 }
    {
        floor(&self.g, &self.a, &self.terms, pair).unwrap()
    }

    /// The cost of the point that is held, if one is.
    pub(crate) fn held_cost(&self) -> Option<i64>
        ensures { result ≡ option_map (λ z. cost_of (problem (view G.Table.meant A.Table.meant self.now)) (places z)) (view G.Table.meant A.Table.meant self.now).point }
    {
        match &self.point {
            Some(z) => Some(self.cost_of(z)),
            None => None,
        }
    }

    /// The floor of the pair that is held.
    pub(crate) fn held_floor(&self) -> i128
        ensures value { result ≡ floor_of (problem (view G.Table.meant A.Table.meant self.now)) (view G.Table.meant A.Table.meant self.now).pair }
        ensures small { unsigned_abs result ≤ 2 ^ 122 }
    {
        self.floor_of(Pair {
            point: &self.pair.point,
            multipliers: &self.pair.multipliers,
        })
    }
}

/// How far 256 times a cost lies above a floor.
pub(crate) fn gap_above(floor: i128, cost: i64) -> i128
    requires { unsigned_abs floor ≤ 2 ^ 122 }
    ensures { result ≡ pos 256 *ℤ cost -ℤ floor }
{
    256 * cost as i128 - floor
}
