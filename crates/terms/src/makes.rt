//! Terms are made of lists that fit.
ghost use Rattle.std.specs.Prelude.{◌≡◌, length};
ghost use Rattle.std.specs.Option.{option_map};
ghost use Rattle.terms.specs.Numbers.{sizes, limited, numbers, numbers_of, fitting, ropes_of, rows_of};

use crate::checks::{all_within, in_order};
use crate::fixed::placed;
use crate::limits::{MOST_ROPES, MOST_ROWS, PRICE_LIMIT, PULL_LIMIT, ROW_LIMIT};
use crate::numbers::Terms;

fn sizes_fit(c: usize, l: usize, u: usize, lo: usize, hi: usize) -> bool
    ensures { result ≡ sizes c l u lo hi }
{
    0 < c && c <= MOST_ROPES && lo <= MOST_ROWS && l == c && u == c && hi == lo
}

fn limits_fit(c: &[i64], l: &[i64], u: &[i64], lo: &[i64], hi: &[i64]) -> bool
    requires ropes { length l.now ≡ length u.now }
    requires rows { length lo.now ≡ length hi.now }
    ensures { result ≡ limited c.now l.now u.now lo.now hi.now }
{
    all_within(PRICE_LIMIT, c)
        && all_within(PULL_LIMIT, l)
        && all_within(PULL_LIMIT, u)
        && all_within(ROW_LIMIT, lo)
        && all_within(ROW_LIMIT, hi)
        && in_order(l, u)
        && in_order(lo, hi)
}

impl Terms {
    /// Terms of these numbers, or nothing where a length or a limit is not kept, or a lower number lies above its upper one.
    ///
    /// `c`, `l` and `u` have a number for each rope, 1 to 16, and `lo` and `hi` one for each row, up to 32.
    pub fn new(c: &[i64], l: &[i64], u: &[i64], lo: &[i64], hi: &[i64]) -> Option<Terms>
        ensures { option_map numbers_of result ≡ fitting (numbers c.now l.now u.now lo.now hi.now) }
    {
        if !sizes_fit(c.len(), l.len(), u.len(), lo.len(), hi.len()) {
            return None;
        }
        if !limits_fit(c, l, u, lo, hi) {
            return None;
        }
        Some(Terms {
            c: placed(c),
            l: placed(l),
            u: placed(u),
            lo: placed(lo),
            hi: placed(hi),
        })
    }

    /// How many ropes there are, 1 to 16.
    pub fn ropes(&self) -> usize
        ensures { result ≡ ropes_of self.now }
    {
        self.c.len()
    }

    /// How many rows there are, 0 to 32.
    pub fn rows(&self) -> usize
        ensures { result ≡ rows_of self.now }
    {
        self.lo.len()
    }
}
