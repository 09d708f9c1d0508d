//! The struct stands alone: definitions that name it can be cited from every other file.
ghost use Rattle.std.specs.Prelude.{◌≡◌, ◌<◌, ◌≤◌, true, length};
ghost use Rattle.duality.specs.Tests.{all_within, in_order};

use crate::limits::{MOST_ROPES, MOST_ROWS};
use arrayvec::ArrayVec;

/// The numbers of a plan beside its tables: the linear costs `c` and the bounds `l` and `u` of its ropes, and the limits `lo` and `hi` of its rows.
///
/// They lie in places of a fixed size, so terms take no memory.
#[derive(Drop)]
pub struct Terms {
    pub c: ArrayVec<i64, MOST_ROPES>,
    pub l: ArrayVec<i64, MOST_ROPES>,
    pub u: ArrayVec<i64, MOST_ROPES>,
    pub lo: ArrayVec<i64, MOST_ROWS>,
    pub hi: ArrayVec<i64, MOST_ROWS>,
    ghost some: { (0 < length c.items) × (length c.items ≤ 16) },
    ghost few: { length lo.items ≤ 32 },
    ghost prices: { all_within 268435456 c.items ≡ true },
    ghost lefts: { (length l.items ≡ length c.items) × (all_within 32768 l.items ≡ true) },
    ghost rights: { (length u.items ≡ length c.items) × (all_within 32768 u.items ≡ true) },
    ghost floors: { all_within 536870912 lo.items ≡ true },
    ghost ceilings: { (length hi.items ≡ length lo.items) × (all_within 536870912 hi.items ≡ true) },
    ghost wide: { in_order l.items u.items ≡ true },
    ghost open: { in_order lo.items hi.items ≡ true },
}
