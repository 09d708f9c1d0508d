//! Why an offer is refused.
ghost use Rattle.std.specs.Prelude.{◌≡◌, ◌≤◌, true, length};
ghost use Rattle.terms.specs.Numbers.{ropes_of};
ghost use Rattle.duality.specs.Lists.{places};
ghost use Rattle.duality.specs.Tests.{many_within};
ghost use Rattle.table.specs.Grid.{Grid};
ghost use Rattle.evaluate.specs.Stated.{problem_of};
ghost use Rattle.calls.specs.Refusing.{length_refusal, limit_refusal, bound_refusal, row_refusal};
ghost use Rattle.calls.specs.Refusing.{point_refusal, pair_refusal, proof_refusal};
ghost use Rattle.calls.specs.Steps.{unless};

use evaluate::{Pair, check_bounds, check_rows, refutes};
use opening::Refusal;
use table::Table;
use terms::{MULTIPLIER_LIMIT, PULL_LIMIT, Terms, Unmet, first_beyond};

/// Refuses a list of this length where another is needed.
pub fn check_length(needed: usize, len: usize) -> Result<(), Refusal>
    ensures { result ≡ unless (length_refusal needed len) tt }
{
    if len != needed {
        return Err(Refusal::OfferLength { needed });
    }
    Ok(())
}

/// Refuses the first number beyond the limit, counted on from `first`.
fn check_limit(limit: u64, first: usize, xs: &[i64]) -> Result<(), Refusal>
    requires first { first ≤ 16 }
    requires few { length xs.now ≤ 32 }
    ensures { result ≡ unless (limit_refusal limit first xs.now) tt }
{
    match first_beyond(limit, xs) {
        Some(k) => Err(Refusal::OfferLimit { index: first + k }),
        None => Ok(()),
    }
}

fn refuse_bound(terms: &Terms, z: &[i64]) -> Result<(), Refusal>
    requires { many_within (ropes_of terms.now) 32768 z.now ≡ true }
    ensures { (g a : Grid) → result ≡ unless (bound_refusal (problem_of g a terms.now) (places z.now)) tt }
{
    if let Err(Unmet::At(rope)) = check_bounds(terms, z) {
        return Err(Refusal::Bound { rope });
    }
    Ok(())
}

fn refuse_row<T: Table>(a: &T, terms: &Terms, z: &[i64]) -> Result<(), Refusal>
    requires { many_within (ropes_of terms.now) 32768 z.now ≡ true }
    ensures { (g : Grid) → result ≡ unless (row_refusal (problem_of g (T.Table.meant a.now) terms.now) (places z.now)) tt }
{
    if let Err(Unmet::At(row)) = check_rows(a, terms, z) {
        return Err(Refusal::Row { row });
    }
    Ok(())
}

/// Refuses a point, whatever G is, for its length, the first number beyond ±32,768, the first bound that it breaks, the first row.
pub fn check_point<T: Table>(a: &T, terms: &Terms, z: &[i64]) -> Result<(), Refusal>
    ensures { (g : Grid) → result ≡ unless (point_refusal (problem_of g (T.Table.meant a.now) terms.now) z.now) tt }
{
    check_length(terms.ropes(), z.len())?;
    check_limit(PULL_LIMIT, 0, z)?;
    refuse_bound(terms, z)?;
    refuse_row(a, terms, z)
}

/// Refuses a pair for the length of the point, that of the multipliers, the first number beyond its limit. Multipliers count on from the point.
pub fn check_pair(terms: &Terms, pair: Pair) -> Result<(), Refusal>
    ensures { (g a : Grid) → result ≡ unless (pair_refusal (problem_of g a terms.now)
        (record { point = pair.entry.point.now; multipliers = pair.entry.multipliers.now })) tt }
{
    let ropes = terms.ropes();
    check_length(ropes, pair.point.len())?;
    check_length(terms.rows(), pair.multipliers.len())?;
    check_limit(PULL_LIMIT, 0, pair.point)?;
    check_limit(MULTIPLIER_LIMIT, ropes, pair.multipliers)
}

/// Refuses multipliers as a proof of none for their length, the first number beyond ±16,777,216, or that they prove nothing.
pub fn check_proof<T: Table>(a: &T, terms: &Terms, y: &[i64]) -> Result<(), Refusal>
    ensures { (g : Grid) → result ≡ unless (proof_refusal (problem_of g (T.Table.meant a.now) terms.now) y.now) tt }
{
    check_length(terms.rows(), y.len())?;
    check_limit(MULTIPLIER_LIMIT, 0, y)?;
    if !refutes(a, terms, y).unwrap() {
        return Err(Refusal::NoProof);
    }
    Ok(())
}
