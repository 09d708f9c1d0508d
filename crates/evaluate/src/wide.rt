//! Products that need 128 bits, and the most and the least of two of them.
ghost use Rattle.std.specs.Prelude.{◌≡◌, ◌^◌, ◌≤◌, pos, ◌+ℤ◌, ◌-ℤ◌, ◌*ℤ◌, unsigned_abs};
ghost use Rattle.duality.specs.Floor.{furthest as furthest_of};
ghost use Rattle.duality.specs.Refutation.{highest as highest_of, lowest as lowest_of};

/// A product that need not fit 64 bits.
pub(crate) fn wide_product(x: i64, y: i64) -> i128
    ensures { result ≡ x *ℤ y }
{
    x as i128 * y as i128
}

/// The most that w (x - v) can be while v runs from low to high.
pub(crate) fn furthest(w: i64, x: i64, low: i64, high: i64) -> i128
    requires x { unsigned_abs x ≤ 2 ^ 54 }
    requires low { unsigned_abs low ≤ 536870912 }
    requires high { unsigned_abs high ≤ 536870912 }
    ensures { result ≡ furthest_of w x low high }
{
    wide_product(w, x - low).max(wide_product(w, x - high))
}

// The most and the least stay two functions: they differ in what they compute, not in a type or a constant.

/// The most that w v can be while v runs from low to high.
pub(crate) fn highest(w: i64, low: i64, high: i64) -> i128
    ensures { result ≡ highest_of w low high }
{
    wide_product(w, low).max(wide_product(w, high))
}

/// The least that w v can be while v runs from low to high.
pub(crate) fn lowest(w: i64, low: i64, high: i64) -> i128
    ensures { result ≡ lowest_of w low high }
{
    wide_product(w, low).min(wide_product(w, high))
}

/// What weights leave of 256 times a slope.
pub(crate) fn left_of(along: i64, price: i64, weights: i64) -> i64
    requires along { unsigned_abs along ≤ 2 ^ 39 }
    requires price { unsigned_abs price ≤ 268435456 }
    requires weights { unsigned_abs weights ≤ 2 ^ 49 }
    ensures { result ≡ pos 256 *ℤ (along +ℤ price) -ℤ weights }
{
    256 * (along + price) - weights
}

/// 256 times a cost, less twice the slack.
pub(crate) fn less_slack(cost: i64, slack: i128) -> i128
    requires { unsigned_abs slack ≤ 2 ^ 120 }
    ensures value { result ≡ pos 256 *ℤ cost -ℤ pos 2 *ℤ slack }
    ensures small { unsigned_abs result ≤ 2 ^ 122 }
{
    256 * cost as i128 - 2 * slack
}
