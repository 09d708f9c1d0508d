//! Which bound a point breaks.
ghost use Rattle.std.specs.Prelude.{◌≡◌, length, ◌==◌};
ghost use Rattle.terms.specs.Numbers.{ropes_of};
ghost use Rattle.duality.specs.Lists.{places};
ghost use Rattle.table.specs.Grid.{Grid};
ghost use Rattle.evaluate.specs.Stated.{problem_of};
ghost use Rattle.evaluate.specs.Findings.{found, keeps_bound, BoundKept, Finds};

use terms::{Terms, Unmet, first_outside};

/// Whether each number in z lies within its rope's bounds, whatever the tables are: otherwise the first rope whose number doesn't,
/// or that z hasn't a number for each rope.
pub fn check_bounds(terms: &Terms, z: &[i64]) -> Result<(), Unmet>
    ensures value { (g a : Grid) → result ≡ found (length z.now == ropes_of terms.now)
        (keeps_bound (problem_of g a terms.now) (places z.now)) (ropes_of terms.now) }
    ensures law { (g a : Grid) → Finds (BoundKept (problem_of g a terms.now) (places z.now)) (ropes_of terms.now) result }
{
    if z.len() != terms.ropes() {
        return Err(Unmet::NoPoint);
    }
    match first_outside(&terms.l, &terms.u, z) {
        Some(j) => Err(Unmet::At(j)),
        None => Ok(()),
    }
}
