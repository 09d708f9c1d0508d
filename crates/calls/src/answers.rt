//! What a plan is asked to amend, and what it answers.
ghost use Rattle.std.specs.Prelude.{Some};
ghost use Rattle.calls.specs.Verdicts.{name_of};

use exchange::End as ExchangeEnd;
use std::fmt;
use walk::End as WalkEnd;

/// What becomes of a lawful offer. Neither is an error.
#[derive(Clone, Copy, PartialEq, Eq, Debug)]
pub enum Verdict {
    /// It is held from now on.
    Taken,
    /// What was held is no worse, and stays.
    Kept,
}

impl fmt::Display for Verdict {
    ghost output = { λ v. Some (name_of v) };

    fn fmt<W: fmt::Write>(&self, f: &mut fmt::Formatter<W>) -> fmt::Result {
        f.write_str(match self {
            Verdict::Taken => "taken",
            Verdict::Kept => "kept",
        })
    }
}

/// New numbers for one row or one rope.
#[derive(Clone, Copy)]
pub enum Amendment {
    /// The lower and the upper limit of a row.
    Row { index: usize, lo: i64, hi: i64 },
    /// The lower and the upper bound of a rope.
    Rope { index: usize, l: i64, u: i64 },
    /// The linear cost of a rope.
    Cost { index: usize, c: i64 },
}

/// What no longer holds after an amendment, and was dropped: both, one of the two, or neither.
#[derive(Clone, Copy, PartialEq, Eq, Debug)]
pub struct Dropped {
    pub point: bool,
    pub proof: bool,
}

/// What is known of the points that meet every row and bound in force.
#[derive(Clone, Copy, PartialEq, Eq, Debug)]
pub enum Found {
    /// There is none: a proof of that is held.
    NoneExists,
    /// One is held. It costs this much, and no point saves more than a 256th of the gap.
    Point { cost: i64, gap: i128 },
    /// None is held, and no proof that there is none.
    NoPoint,
}

/// What a plan shows.
#[derive(Clone, Copy, PartialEq, Eq, Debug)]
pub struct Shown {
    /// At most 256 times the cost of every point that meets every row and bound in force.
    pub floor: i128,
    pub found: Found,
}

/// What a solve did. It says nothing of the problem: only what is held after it does.
#[derive(Clone, Copy)]
pub struct Report {
    /// Steps of the exchange that were begun.
    pub steps: usize,
    pub exchange: ExchangeEnd,
    /// Moves of the walk that were taken.
    pub moves: u32,
    pub walk: WalkEnd,
    /// The smallest size of a pivot that was taken, 0 if none was.
    pub smallest: f64,
}
