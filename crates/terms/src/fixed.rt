//! Lists in places of a fixed size.
ghost use Rattle.std.specs.Prelude.{◌≡◌, ◌≤◌, length, take};

use arrayvec::ArrayVec;

/// A list in a place of N numbers: all of it if it fits, else the first N.
pub fn placed<const N: usize>(xs: &[i64]) -> ArrayVec<i64, N>
    ensures value { result.items ≡ take N xs.now }
    ensures whole { length xs.now ≤ N → result.items ≡ xs.now }
{
    // Filled in its place: `try_from` answers a list inside a Result, and taking it out copies all N places.
    let mut list = ArrayVec::new();
    list.try_extend_from_slice(&xs[..N.min(xs.len())]).unwrap();
    list
}
