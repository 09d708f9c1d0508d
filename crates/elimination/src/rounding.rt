//! Floats to whole numbers.
ghost use Rattle.std.specs.Prelude.{◌≡◌};
ghost use Rattle.elimination.specs.Nearest.{nearest as nearest_of, Rounds};

use std::num::saturating_f64_to_i64;

/// The nearest whole number, where a half goes away from zero. What lies beyond 64 bits is held inside them, and what is no number gives 0.
pub fn nearest(x: f64) -> i64
    ensures value { result ≡ nearest_of x }
    ensures law { Rounds x result }
{
    saturating_f64_to_i64(x.round())
}
