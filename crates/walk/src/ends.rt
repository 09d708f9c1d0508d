//! How a walk ends.
ghost use Rattle.std.specs.Prelude.{Some};
ghost use Rattle.walk.specs.Ends.{name_of};

use std::fmt;

#[derive(Clone, Copy, PartialEq, Eq, Debug)]
pub enum End {
    /// No single move lowers.
    Settled,
    /// A move lowers, and the budget is used.
    Spent,
}

impl fmt::Display for End {
    ghost output = { λ e. Some (name_of e) };

    fn fmt<W: fmt::Write>(&self, f: &mut fmt::Formatter<W>) -> fmt::Result {
        f.write_str(match self {
            End::Settled => "settled",
            End::Spent => "spent",
        })
    }
}

#[derive(Clone, Copy, PartialEq, Eq, Debug)]
pub struct Walked {
    /// How many moves were taken.
    pub moves: u32,
    pub end: End,
}

/// Why no walk was made: the list has another length than there are ropes, or a number outside its bounds.
#[derive(Clone, Copy, PartialEq, Eq, Debug)]
pub struct OutOfBounds;
