//! Amendments of the terms.
ghost use Rattle.std.specs.Prelude.{◌≡◌, ◌<◌, true, length, None, nat_lt, slice_set};
ghost use Rattle.duality.specs.Tests.{within as is_within};
ghost use Rattle.terms.specs.Numbers.{numbers_of};
ghost use Rattle.calls.specs.Refusing.{ordered as ordered_of, unless_allowed, amend_refusal};
ghost use Rattle.calls.specs.Steps.{amendment as amendment_of, if_allowed, unless};

use arrayvec::ArrayVec;
use calls::Amendment;
use opening::Refusal;
use terms::{PRICE_LIMIT, PULL_LIMIT, ROW_LIMIT, Terms, within};

fn ordered(limit: u64, low: i64, high: i64) -> bool
    ensures { result ≡ ordered_of limit low high }
{
    within(limit, low) && within(limit, high) && low <= high
}

fn check_allowed(index: usize, count: usize, allowed: bool) -> Result<(), Refusal>
    ensures { result ≡ unless (unless_allowed index count allowed) tt }
{
    if index >= count {
        return Err(Refusal::NoSuch { index });
    }
    if !allowed {
        return Err(Refusal::Amendment { index });
    }
    Ok(())
}

fn check_amendment(terms: &Terms, amendment: Amendment) -> Result<(), Refusal>
    ensures { result ≡ unless (amend_refusal (numbers_of terms.now) amendment) tt }
{
    match amendment {
        Amendment::Row { index, lo, hi } => {
            check_allowed(index, terms.rows(), ordered(ROW_LIMIT, lo, hi))
        }
        Amendment::Rope { index, l, u } => {
            check_allowed(index, terms.ropes(), ordered(PULL_LIMIT, l, u))
        }
        Amendment::Cost { index, c } => {
            check_allowed(index, terms.ropes(), within(PRICE_LIMIT, c))
        }
    }
}

/// Sets the number at one place of a list.
fn set_place<const N: usize>(list: &mut ArrayVec<i64, N>, index: usize, x: i64)
    requires { index < length list.old.items }
    ensures { list.new.items ≡ slice_set list.old.items index x }
{
    list[index] = x;
}

fn set_row(terms: &mut Terms, index: usize, lo: i64, hi: i64)
    requires row { nat_lt index (numbers_of terms.old).rows ≡ true }
    requires allowed { ordered_of 536870912 lo hi ≡ true }
    ensures { numbers_of terms.new ≡ amendment_of (numbers_of terms.old) (Amendment.Row index lo hi) }
{
    set_place(&mut terms.lo, index, lo);
    set_place(&mut terms.hi, index, hi);
}

fn set_rope(terms: &mut Terms, index: usize, l: i64, u: i64)
    requires rope { nat_lt index (numbers_of terms.old).ropes ≡ true }
    requires allowed { ordered_of 32768 l u ≡ true }
    ensures { numbers_of terms.new ≡ amendment_of (numbers_of terms.old) (Amendment.Rope index l u) }
{
    set_place(&mut terms.l, index, l);
    set_place(&mut terms.u, index, u);
}

fn set_cost(terms: &mut Terms, index: usize, c: i64)
    requires rope { nat_lt index (numbers_of terms.old).ropes ≡ true }
    requires allowed { is_within 268435456 c ≡ true }
    ensures { numbers_of terms.new ≡ amendment_of (numbers_of terms.old) (Amendment.Cost index c) }
{
    set_place(&mut terms.c, index, c);
}

fn renumber(terms: &mut Terms, amendment: Amendment)
    requires { amend_refusal (numbers_of terms.old) amendment ≡ None }
    ensures { numbers_of terms.new ≡ amendment_of (numbers_of terms.old) amendment }
{
    match amendment {
        Amendment::Row { index, lo, hi } => set_row(terms, index, lo, hi),
        Amendment::Rope { index, l, u } => set_rope(terms, index, l, u),
        Amendment::Cost { index, c } => set_cost(terms, index, c),
    }
}

/// Sets the numbers of one row or rope, or says why that is refused: there is none such, a number lies beyond its limit, or the lower one above the upper.
///
/// A refusal leaves the terms as they stood.
pub fn amend_terms(terms: &mut Terms, amendment: Amendment) -> Result<(), Refusal>
    ensures answer { result ≡ unless (amend_refusal (numbers_of terms.old) amendment) tt }
    ensures after { numbers_of terms.new
        ≡ if_allowed (amend_refusal (numbers_of terms.old) amendment) (amendment_of (numbers_of terms.old) amendment) (numbers_of terms.old) }
{
    check_amendment(terms, amendment)?;
    renumber(terms, amendment);
    Ok(())
}
