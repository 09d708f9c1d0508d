//! Unknowns in whole numbers.
ghost use Rattle.std.specs.Prelude.{◌≡◌, ◌≤◌, map, length};
ghost use Rattle.exchange.specs.Offers.{filled};
ghost use Rattle.exchange.specs.Rounding.{pulled, in_parts as in_parts_of};

use elimination::nearest;
use terms::MOST_ROPES;

/// Multipliers are kept in 256ths.
const SCALE: f64 = 256.0;

/// The unknowns, rounded.
pub(crate) fn rounded(unknowns: &[f64]) -> [i64; MOST_ROPES]
    requires { length unknowns.now ≤ 16 }
    ensures { result ≡ filled 16 (pulled unknowns.now) }
{
    let mut whole = [0; MOST_ROPES];
    for (k, x) in unknowns.iter().enumerate() {
        whole[k] = nearest(*x);
    }
    whole
}

/// Brings unknowns to 256ths.
pub(crate) fn in_parts(unknowns: &mut [f64])
    ensures { unknowns.new ≡ map in_parts_of unknowns.old }
{
    for y in unknowns.iter_mut() {
        *y *= SCALE;
    }
}
