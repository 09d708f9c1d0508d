//! What the working set is made of.
ghost use Rattle.std.specs.Prelude.{◌≡◌, Some};
ghost use Rattle.exchange.specs.Members.{blank};
ghost use Rattle.exchange.specs.Ends.{name_of};

use std::fmt;
use terms::{MOST_ROPES, MOST_ROWS};

/// A limit of the problem: a row, or the bound of a rope.
#[derive(Clone, Copy, Debug, PartialEq, Eq)]
pub enum Limit {
    Row(usize),
    Bound(usize),
}

/// The side on which a limit is held.
#[derive(Clone, Copy, Debug, PartialEq, Eq)]
pub enum Side {
    Lower,
    Upper,
}

/// A member of the working set: a limit that is held as an equation on one side.
#[derive(Clone, Copy, Debug, PartialEq, Eq)]
pub struct Member {
    pub limit: Limit,
    pub side: Side,
}

impl Default for Member {
    ghost is_default = { λ w. w ≡ blank };

    // What stands in a place of the set that is not in use.
    fn default() -> Self {
        Member {
            limit: Limit::Bound(0),
            side: Side::Lower,
        }
    }
}

/// How many ticks a point lies outside a limit, and the member that would hold it inside.
// No `Option` is needed: 0 ticks is what a limit has that is met, and the search begins there.
#[derive(Clone, Copy)]
pub(crate) struct Breach {
    pub(crate) ticks: i64,
    pub(crate) member: Member,
}

/// How far a multiplier lies on the wrong side of 0, and whose it is.
// No `Option` is needed: 0 is the size that a right multiplier has, and the search begins there.
#[derive(Clone, Copy)]
pub(crate) struct Wrong {
    pub(crate) size: u64,
    pub(crate) place: usize,
}

/// What a step offers: a point inside the bounds, and a multiplier in 256ths for each row. Places past the ropes and the rows are 0.
#[derive(Clone, Copy, Debug, PartialEq, Eq)]
pub struct Offer {
    pub point: [i64; MOST_ROPES],
    pub multipliers: [i64; MOST_ROWS],
}

/// What becomes of the working set after a step.
#[derive(Clone, Copy, Debug, PartialEq, Eq)]
pub enum Choice {
    /// This member enters.
    Enter(Member),
    /// The member at this place leaves.
    Leave(usize),
    /// A limit is broken, and the set is full.
    Full,
    /// No limit is broken and no multiplier is wrong.
    Done,
}

/// What a step came to.
// Not an `Option` or a `Result`: either case may end an exchange, and no caller passes one on with `?`.
#[derive(Clone, Copy, Debug, PartialEq, Eq)]
pub enum Step {
    /// The step's system has no solution within the limits: nothing is offered, and the working set stays.
    Stuck,
    /// What the step offers, and how the working set changed.
    Found(Offer, Choice),
}

/// How an exchange ends.
#[derive(Clone, Copy, Debug, PartialEq, Eq)]
pub enum End {
    /// No limit is broken and no multiplier is wrong.
    Done,
    /// A limit is broken, and the working set has as many members as there are ropes.
    Full,
    /// A step's system has no solution within the limits.
    Stuck,
    /// A further step is due, and the budget is used.
    Spent,
}

impl fmt::Display for End {
    ghost output = { λ e. Some (name_of e) };

    fn fmt<W: fmt::Write>(&self, f: &mut fmt::Formatter<W>) -> fmt::Result {
        f.write_str(match self {
            End::Done => "done",
            End::Full => "full",
            End::Stuck => "stuck",
            End::Spent => "spent",
        })
    }
}

/// What is said of a whole exchange: steps begun, its end, and the smallest size of a pivot taken, 0 if none.
#[derive(Clone, Copy, Debug, PartialEq)]
pub struct Report {
    pub steps: usize,
    pub end: End,
    pub smallest: f64,
}
