//! What a point costs.
ghost use Rattle.std.specs.Prelude.{◌≡◌};
ghost use Rattle.terms.specs.Numbers.{ropes_of};
ghost use Rattle.duality.specs.Lists.{places};
ghost use Rattle.duality.specs.Problem.{cost as cost_of};
ghost use Rattle.table.specs.Grid.{Grid};
ghost use Rattle.evaluate.specs.Stated.{problem_of};
ghost use Rattle.duality.specs.Tests.{many_within, answer};

use crate::sums::row_of;
use table::Table;
use terms::{PULL_LIMIT, Terms, many_within};

/// The cost of z, whatever the rows are. Nothing where z hasn't a number for each rope, or one beyond ±32,768.
pub fn cost<T: Table>(g: &T, terms: &Terms, z: &[i64]) -> Option<i64>
    ensures { (a : Grid) → result ≡ answer (many_within (ropes_of terms.now) 32768 z.now)
        (cost_of (problem_of (T.Table.meant g.now) a terms.now) (places z.now)) }
{
    if !many_within(terms.ropes(), PULL_LIMIT, z) {
        return None;
    }
    let mut total = 0;
    for (i, x) in z.iter().enumerate() {
        total += *x * (row_of(g, i, z) + 2 * terms.c[i]);
    }
    Some(total)
}
