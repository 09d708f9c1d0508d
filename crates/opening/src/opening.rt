//! The check of what a plan is to be opened from.
ghost use Rattle.std.specs.Prelude.{◌≡◌};
ghost use Rattle.std.specs.Result.{result_err};
ghost use Rattle.opening.specs.Faults.{Truly};
ghost use Rattle.opening.specs.Firsts.{unless};
ghost use Rattle.opening.specs.Fits.{TellsFit};
ghost use Rattle.opening.specs.Opening.{numbers_of, open_fault};

use crate::lists::Lists;
use crate::refusal::Refusal;
use crate::slip::Slip;
use crate::tables::{check_sizes, check_tables};
use table::Table;

/// The checks in turn: sizes of G and then of A, places of G and then of A, symmetry of G, lengths, limits, order, slip.
///
/// All pass exactly where everything fits; the cost is convex then. Otherwise the first fault is told, and what it names is at fault.
pub fn check_opening<G: Table, A: Table>(g: &G, a: &A, lists: &Lists) -> Result<(), Refusal>
    ensures value { result ≡ unless (open_fault (G.Table.meant g.now) (A.Table.meant a.now) (numbers_of lists.now)) tt }
    ensures law { TellsFit (G.Table.meant g.now) (A.Table.meant a.now) (numbers_of lists.now) (result_err result) }
    ensures fault { Truly (G.Table.meant g.now) (A.Table.meant a.now) (numbers_of lists.now) (result_err result) }
{
    check_sizes(g, a)?;
    check_tables(g, a)?;
    let ropes = g.height();
    lists.check(ropes, a.height())?;
    Slip::new(g, ropes, lists.slip).check()
}
