//! Tests of numbers and of whole lists.
ghost use Rattle.std.specs.Prelude.{◌≡◌, ◌&&◌, ◌==◌, length, min};
ghost use Rattle.duality.specs.Lists.{places};
ghost use Rattle.duality.specs.Tests.{first_not, within as is_within, between as is_between, all_within, in_order, many_within};

/// Whether a number lies within ±limit.
pub fn within(limit: u64, x: i64) -> bool
    ensures { result ≡ is_within limit x }
{
    x.unsigned_abs() <= limit
}

/// Whether a number lies from low to high.
pub fn between(low: i64, high: i64, x: i64) -> bool
    ensures { result ≡ is_between low high x }
{
    low <= x && x <= high
}

/// The place of the first number beyond ±limit.
pub fn first_beyond(limit: u64, xs: &[i64]) -> Option<usize>
    ensures { result ≡ first_not (λ k. is_within limit (places xs.now k)) (length xs.now) }
{
    xs.iter().position(|x| !within(limit, *x))
}

/// The place of the first number outside its bounds, as far as the shortest of the three lists goes.
pub fn first_outside(lows: &[i64], highs: &[i64], xs: &[i64]) -> Option<usize>
    ensures { result ≡ first_not (λ k. is_between (places lows.now k) (places highs.now k) (places xs.now k))
        (min (length lows.now) (min (length highs.now) (length xs.now))) }
{
    lows.iter()
        .zip(highs.iter().zip(xs))
        .position(|(low, (high, x))| !between(*low, *high, *x))
}

/// Whether each number lies within ±limit.
pub fn all_within(limit: u64, xs: &[i64]) -> bool
    ensures { result ≡ all_within limit xs.now }
{
    first_beyond(limit, xs).is_none()
}

/// Whether a list has n numbers, each within ±limit.
pub fn many_within(n: usize, limit: u64, xs: &[i64]) -> bool
    ensures { result ≡ many_within n limit xs.now }
{
    xs.len() == n && all_within(limit, xs)
}

/// Whether there are as many lower numbers as upper ones, and none lies above the upper one at its place.
pub fn in_order(lows: &[i64], highs: &[i64]) -> bool
    ensures { result ≡ (length lows.now == length highs.now && in_order lows.now highs.now) }
{
    lows.len() == highs.len() && lows.iter().zip(highs).all(|(low, high)| low <= high)
}
