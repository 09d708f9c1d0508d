//! The pivot of a column.
ghost use Rattle.std.specs.Prelude.{◌≡◌, ◌<◌, ◌≤◌, true, false, length};
ghost use Rattle.elimination.specs.Lines.{pivot_of, takable};
ghost use Rattle.elimination.specs.Runs.{Takes, HasNone};

use crate::squares::LINE_PLACES;

/// A pivot's size lies strictly above this, 2^-20.
const SMALLEST: f64 = 0.00000095367431640625;

/// A pivot's size lies strictly below this, 2^60.
pub const LARGEST: f64 = 1152921504606846976.0;

/// The pivot of a column: the place of its line, and its size.
#[derive(Clone, Copy)]
pub struct Pivot {
    pub place: usize,
    pub size: f64,
}

impl Pivot {
    pub(crate) fn can_be_taken(&self) -> bool
        ensures { result ≡ takable self.now.size }
    {
        self.size > SMALLEST && self.size < LARGEST
    }
}

/// The first of the largest entries of column k, from line k down.
pub(crate) fn pivot_in_column(lines: &[[f64; LINE_PLACES]], k: usize) -> Pivot
    requires column { k < length lines.now }
    requires few { length lines.now ≤ 32 }
    ensures value { (result.place, result.size) ≡ pivot_of k lines.now }
    ensures within { result.place < length lines.now }
    ensures taken { takable result.size ≡ true → Takes lines.now k result }
    ensures none { takable result.size ≡ false → HasNone lines.now k }
{
    let mut best = Pivot {
        place: k,
        size: 0.0,
    };
    for (i, line) in lines[k..].iter().enumerate() {
        let size = line[k].abs();
        if size > best.size {
            best = Pivot { place: k + i, size };
        }
    }
    best
}
