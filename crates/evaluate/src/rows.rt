//! Which row a point breaks, and whether it is feasible.
ghost use Rattle.std.specs.Prelude.{◌≡◌, IfSome, Decides};
ghost use Rattle.terms.specs.Numbers.{ropes_of, rows_of};
ghost use Rattle.duality.specs.Lists.{places};
ghost use Rattle.duality.specs.Problem.{Feasible};
ghost use Rattle.table.specs.Grid.{Grid};
ghost use Rattle.evaluate.specs.Stated.{problem_of};
ghost use Rattle.duality.specs.Tests.{many_within, answer};
ghost use Rattle.evaluate.specs.Findings.{found, keeps_row, RowKept, Finds, feasible};

use crate::bounds::check_bounds;
use crate::sums::row_of;
use table::Table;
use terms::{ROUNDED_LIMIT, Terms, Unmet, between, many_within};

/// Whether each row's sum at z lies within its limits, whatever G is: otherwise the first row whose sum doesn't,
/// or that z hasn't a number for each rope, or one beyond ±1,073,741,824.
pub fn check_rows<T: Table>(a: &T, terms: &Terms, z: &[i64]) -> Result<(), Unmet>
    ensures value { (g : Grid) → result ≡ found (many_within (ropes_of terms.now) 1073741824 z.now)
        (keeps_row (problem_of g (T.Table.meant a.now) terms.now) (places z.now)) (rows_of terms.now) }
    ensures law { (g : Grid) → Finds (RowKept (problem_of g (T.Table.meant a.now) terms.now) (places z.now))
        (rows_of terms.now) result }
{
    if !many_within(terms.ropes(), ROUNDED_LIMIT, z) {
        return Err(Unmet::NoPoint);
    }
    for (i, low) in terms.lo.iter().enumerate() {
        if !between(*low, terms.hi[i], row_of(a, i, z)) {
            return Err(Unmet::At(i));
        }
    }
    Ok(())
}

/// Whether z keeps every bound and every row, whatever G is. Nothing where z hasn't a number for each rope, or one beyond ±1,073,741,824.
pub fn is_feasible<T: Table>(a: &T, terms: &Terms, z: &[i64]) -> Option<bool>
    ensures value { (g : Grid) → result ≡ answer (many_within (ropes_of terms.now) 1073741824 z.now)
        (feasible (problem_of g (T.Table.meant a.now) terms.now) (places z.now)) }
    ensures law { (g : Grid) → IfSome result (λ b. Decides b (Feasible (problem_of g (T.Table.meant a.now) terms.now) (places z.now))) }
{
    match check_rows(a, terms, z) {
        Ok(()) => Some(check_bounds(terms, z).is_ok()),
        Err(Unmet::At(_)) => Some(false),
        Err(Unmet::NoPoint) => None,
    }
}
