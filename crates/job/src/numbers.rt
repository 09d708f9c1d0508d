//! The struct stands alone: definitions that name it can be cited from every other file.
ghost use Rattle.std.specs.Prelude.{◌≡◌, ◌*◌, true, length};
ghost use Rattle.duality.specs.Tests.{all_within};
ghost use Rattle.terms.specs.Numbers.{ropes_of, rows_of};

use arrayvec::ArrayVec;
use terms::{MOST_SQUARE, MOST_WEIGHTS, Terms};

/// The numbers of a problem, within limits that keep every sum over them inside 64 bits.
///
/// They lie in places of a fixed size, so a job takes no memory. `g` goes row by row. `a` goes rope by rope, so that the weights of one rope in all rows lie in one run: a_ij is at `j * rows + i`.
#[derive(Drop)]
pub struct Job {
    pub terms: Terms,
    pub g: ArrayVec<i64, MOST_SQUARE>,
    pub a: ArrayVec<i64, MOST_WEIGHTS>,
    ghost matrix: { (length g.items ≡ ropes_of terms * ropes_of terms) × (all_within 1048576 g.items ≡ true) },
    ghost weights: { (length a.items ≡ ropes_of terms * rows_of terms) × (all_within 1048576 a.items ≡ true) },
}
