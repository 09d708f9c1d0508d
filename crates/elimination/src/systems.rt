//! A system as a whole.
ghost use Rattle.std.specs.Prelude.{◌≡◌, ◌≤◌, ◌+◌, length, take};
ghost use Rattle.std.specs.Option.{option_map};
ghost use Rattle.elimination.specs.Lines.{solved, solved_in, left, left_in, padded, seen, Solves};
ghost use Rattle.elimination.specs.Runs.{Eliminates};

use crate::columns::eliminate;
use crate::squares::{LINE_PLACES, MOST_UNKNOWNS};
use crate::unknowns::back_substitute;

/// The unknowns, filled up with 0 to 32 places, or nothing where the system is stuck; and the smallest size of a pivot that was taken.
#[derive(Clone, Copy)]
pub struct Solution {
    pub unknowns: Option<[f64; MOST_UNKNOWNS]>,
    pub smallest: f64,
}

/// The unknowns, filled up with 0; the smallest size of a pivot is noted.
fn unknowns_of_system(
    lines: &mut [[f64; LINE_PLACES]],
    smallest: &mut f64,
) -> Option<[f64; MOST_UNKNOWNS]>
    requires { length lines.old ≤ 32 }
    ensures smallest { smallest.new ≡ (solved smallest.old lines.old).0 }
    ensures unknowns { result ≡ option_map padded (solved smallest.old lines.old).1 }
    ensures lines { lines.new ≡ left smallest.old lines.old }
{
    eliminate(lines, smallest)?;
    back_substitute(lines)
}

/// Solves a system of as many unknowns as there are lines, in place. A line has a coefficient for each unknown and then its right side; the places beyond go with their line.
///
/// It is stuck where a column has no pivot strictly between 2^-20 and 2^60, or an unknown does not lie strictly within ±1,073,741,824.
/// The lines are left as they are once the last column is done, or those before the one without a pivot.
/// A system of more than 32 unknowns is stuck before its first pivot, and its lines stay. `smallest` is the smallest size so far.
pub fn solve(lines: &mut [[f64; LINE_PLACES]], mut smallest: f64) -> Solution
    ensures smallest { result.smallest ≡ (solved_in smallest lines.old).0 }
    ensures unknowns { result.unknowns ≡ option_map padded (solved_in smallest lines.old).1 }
    ensures lines { lines.new ≡ left_in smallest lines.old }
    ensures beyond { solved_in smallest (seen (length lines.old + 1) lines.old) ≡ solved_in smallest lines.old }
    ensures run { Eliminates smallest lines.old lines.new result.smallest (option_map (take (length lines.old)) result.unknowns) }
    ensures law { Solves (length lines.old) (solved_in smallest lines.old).1 }
{
    let unknowns = if lines.len() > MOST_UNKNOWNS {
        None
    } else {
        unknowns_of_system(lines, &mut smallest)
    };
    Solution { unknowns, smallest }
}
