//! Checks of the lists: lengths, limits, order.
ghost use Rattle.std.specs.Prelude.{◌≡◌, ◌≤◌, length, int_le};
ghost use Rattle.std.specs.Option.{option_or};
ghost use Rattle.duality.specs.Lists.{places};
ghost use Rattle.duality.specs.Tests.{first_not};
ghost use Rattle.opening.specs.Firsts.{unless};
ghost use Rattle.opening.specs.Opening.{numbers_of, length_fault, lengths_fault, limit_fault, limits_fault, order_fault, orders_fault};

use crate::lists::Lists;
use crate::refusal::{List, Refusal};
use terms::{PRICE_LIMIT, PULL_LIMIT, ROW_LIMIT, first_beyond};

const SLIP_LIMIT: u64 = 131_072;

fn check_length(list: List, n: usize, xs: &[i64]) -> Result<(), Refusal>
    ensures { result ≡ unless (length_fault list n xs.now) tt }
{
    if xs.len() == n {
        Ok(())
    } else {
        Err(Refusal::Length { list })
    }
}

fn check_limit(list: List, limit: u64, xs: &[i64]) -> Result<(), Refusal>
    ensures { result ≡ unless (limit_fault list limit xs.now) tt }
{
    match first_beyond(limit, xs) {
        Some(index) => Err(Refusal::Limit { list, index }),
        None => Ok(()),
    }
}

/// The first place where a lower number lies above the upper one.
fn first_above(lows: &[i64], highs: &[i64]) -> Option<usize>
    requires { length lows.now ≡ length highs.now }
    ensures { result ≡ first_not (λ k. int_le (places lows.now k) (places highs.now k)) (length lows.now) }
{
    lows.iter().zip(highs).position(|(low, high)| low > high)
}

fn check_order(lower: List, lows: &[i64], highs: &[i64]) -> Result<(), Refusal>
    requires { length lows.now ≡ length highs.now }
    ensures { result ≡ unless (order_fault lower lows.now highs.now) tt }
{
    match first_above(lows, highs) {
        Some(index) => Err(Refusal::Limit { list: lower, index }),
        None => Ok(()),
    }
}

impl Lists<'_> {
    /// That each list has the length for this many ropes and rows.
    fn check_lengths(&self, ropes: usize, rows: usize) -> Result<(), Refusal>
        requires { ropes ≤ 64 }
        ensures { result ≡ unless (lengths_fault ropes rows (numbers_of self.now)) tt }
    {
        check_length(List::Costs, ropes, self.c)?;
        check_length(List::LowerBounds, ropes, self.l)?;
        check_length(List::UpperBounds, ropes, self.u)?;
        check_length(List::LowerLimits, rows, self.lo)?;
        check_length(List::UpperLimits, rows, self.hi)?;
        check_length(List::Slip, ropes * ropes, self.slip)
    }

    /// That no number lies beyond its limit.
    fn check_limits(&self) -> Result<(), Refusal>
        ensures { result ≡ unless (limits_fault (numbers_of self.now)) tt }
    {
        check_limit(List::Costs, PRICE_LIMIT, self.c)?;
        check_limit(List::LowerBounds, PULL_LIMIT, self.l)?;
        check_limit(List::UpperBounds, PULL_LIMIT, self.u)?;
        check_limit(List::LowerLimits, ROW_LIMIT, self.lo)?;
        check_limit(List::UpperLimits, ROW_LIMIT, self.hi)?;
        check_limit(List::Slip, SLIP_LIMIT, self.slip)
    }

    /// That no lower number lies above the upper one at its place.
    fn check_orders(&self) -> Result<(), Refusal>
        requires bounds { length (numbers_of self.now).l ≡ length (numbers_of self.now).u }
        requires limits { length (numbers_of self.now).lo ≡ length (numbers_of self.now).hi }
        ensures { result ≡ unless (orders_fault (numbers_of self.now)) tt }
    {
        check_order(List::LowerBounds, self.l, self.u)?;
        check_order(List::LowerLimits, self.lo, self.hi)
    }

    /// Lengths, limits, order.
    pub(crate) fn check(&self, ropes: usize, rows: usize) -> Result<(), Refusal>
        requires { ropes ≤ 64 }
        ensures { result ≡ unless (option_or (lengths_fault ropes rows (numbers_of self.now)) (option_or (limits_fault (numbers_of self.now)) (orders_fault (numbers_of self.now)))) tt }
    {
        self.check_lengths(ropes, rows)?;
        self.check_limits()?;
        self.check_orders()
    }
}
