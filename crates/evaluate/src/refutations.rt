//! Multipliers that show that no point is feasible.
ghost use Rattle.std.specs.Prelude.{◌≡◌, true, IfSome, Decides, int_lt};
ghost use Rattle.terms.specs.Numbers.{rows_of};
ghost use Rattle.duality.specs.Lists.{places};
ghost use Rattle.duality.specs.Refutation.{most_allowed, least_needed, Refutes};
ghost use Rattle.table.specs.Grid.{Grid};
ghost use Rattle.evaluate.specs.Stated.{problem_of};
ghost use Rattle.duality.specs.Tests.{many_within, answer};
ghost use Rattle.evaluate.specs.Floors.{LeavesNone};

use crate::multipliers::column_of;
use crate::wide::{highest, lowest};
use table::Table;
use terms::{MULTIPLIER_LIMIT, Terms, many_within};

/// The most that the bounds allow the weighed rows to be.
fn most_allowed<T: Table>(a: &T, terms: &Terms, y: &[i64]) -> i128
    requires { many_within (rows_of terms.now) 16777216 y.now ≡ true }
    ensures { (g : Grid) → result ≡ most_allowed (problem_of g (T.Table.meant a.now) terms.now) (places y.now) }
{
    let mut total = 0;
    for (j, low) in terms.l.iter().enumerate() {
        total += highest(column_of(a, j, y), *low, terms.u[j]);
    }
    total
}

/// The least that the rows' limits need them to be.
fn least_needed(terms: &Terms, y: &[i64]) -> i128
    requires { many_within (rows_of terms.now) 16777216 y.now ≡ true }
    ensures { (g a : Grid) → result ≡ least_needed (problem_of g a terms.now) (places y.now) }
{
    let mut total = 0;
    for (i, weight) in y.iter().enumerate() {
        total += lowest(*weight, terms.lo[i], terms.hi[i]);
    }
    total
}

/// Whether the multipliers y show that no point is feasible, whatever G is. Nothing where y hasn't a number for each row, or one beyond ±16,777,216.
pub fn refutes<T: Table>(a: &T, terms: &Terms, y: &[i64]) -> Option<bool>
    ensures value { (g : Grid) → result ≡ answer (many_within (rows_of terms.now) 16777216 y.now)
        (int_lt (most_allowed (problem_of g (T.Table.meant a.now) terms.now) (places y.now))
        (least_needed (problem_of g (T.Table.meant a.now) terms.now) (places y.now))) }
    ensures law { (g : Grid) → IfSome result (λ b. Decides b (Refutes (problem_of g (T.Table.meant a.now) terms.now) (places y.now))) }
    ensures sound { (g : Grid) → IfSome result (LeavesNone (problem_of g (T.Table.meant a.now) terms.now)) }
{
    if !many_within(terms.rows(), MULTIPLIER_LIMIT, y) {
        return None;
    }
    let most = most_allowed(a, terms, y);
    let least = least_needed(terms, y);
    Some(most < least)
}
