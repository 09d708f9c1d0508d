//! The structs stand alone: definitions that name them can be cited from every other file.
ghost use Rattle.std.specs.Prelude.{◌≡◌, true};
ghost use Rattle.terms.specs.Numbers.{ropes_of, rows_of};
ghost use Rattle.duality.specs.Tests.{many_within};
ghost use Rattle.plan.specs.Inside.{held_inside, held_within};

use arrayvec::ArrayVec;
use evaluate::Terms;
use table::Table;
use terms::{MOST_ROPES, MOST_ROWS};

/// A point and a multiplier for each row, kept as one.
#[derive(Drop)]
pub(crate) struct HeldPair {
    pub(crate) point: ArrayVec<i64, MOST_ROPES>,
    pub(crate) multipliers: ArrayVec<i64, MOST_ROWS>,
}

/// A problem over tables of any kind, with the cheapest point, a proof of none and the pair with the highest floor that were offered.
///
/// What may be held has its memory in the plan itself, so that no offer is lost for want of it.
#[derive(Drop)]
pub struct Plan<G: Table, A: Table> {
    pub(crate) g: G,
    pub(crate) a: A,
    pub(crate) terms: Terms,
    /// The cheapest point.
    pub(crate) point: Option<ArrayVec<i64, MOST_ROPES>>,
    /// A proof of none.
    pub(crate) proof: Option<ArrayVec<i64, MOST_ROWS>>,
    /// The pair whose floor is shown.
    pub(crate) pair: HeldPair,
    ghost inside: { held_inside point terms.l.items terms.u.items ≡ true },
    ghost pulls: { held_within (ropes_of terms) 32768 point ≡ true },
    ghost refuters: { held_within (rows_of terms) 16777216 proof ≡ true },
    ghost bases: { many_within (ropes_of terms) 32768 pair.point.items ≡ true },
    ghost weights: { many_within (rows_of terms) 16777216 pair.multipliers.items ≡ true },
}
