//! A job written as a card.
ghost use Rattle.std.specs.Prelude.{◌≡◌, length, OnOk};
ghost use Rattle.table.specs.Grid.{height_of};
ghost use Rattle.opening.specs.Fits.{Fits};
ghost use Rattle.opening.specs.Opening.{numbers_of};
ghost use Rattle.sheet.specs.Numbers.{card_for};
ghost use Rattle.sheet.specs.Gathering.{Gathers, Lends};
ghost use Rattle.sheet.specs.Writing.{write_answer, write_after};
ghost use Rattle.sheet.specs.Laws.{Carries};

use crate::job_numbers::JobNumbers;
use crate::numbers::list_numbers;
use arrayvec::ArrayVec;
use card::{Contents, Fault, Numbers, Sizes};
use opening::{Lists, Refusal, check_opening};
use reading::numbers_in;
use table::Table;
use terms::{MOST_SQUARE, MOST_WEIGHTS};

/// The sizes of a job that opens.
fn sizes_of<G: Table, A: Table>(g: &G, a: &A, lists: &Lists) -> Sizes
    requires { Fits (G.Table.meant g.now) (A.Table.meant a.now) (numbers_of lists.now) }
    ensures ropes { result.ropes ≡ height_of (G.Table.meant g.now) }
    ensures rows { result.rows ≡ height_of (A.Table.meant a.now) }
{
    Sizes::new(g.height() as u16, a.height() as u16).unwrap()
}

/// The numbers of a job that opens, as its card is to hold them.
fn numbers_of_job<G: Table, A: Table>(g: &G, a: &A, lists: &Lists, sizes: &Sizes) -> JobNumbers
    requires fits { Fits (G.Table.meant g.now) (A.Table.meant a.now) (numbers_of lists.now) }
    requires ropes { sizes.now.ropes ≡ height_of (G.Table.meant g.now) }
    requires rows { sizes.now.rows ≡ height_of (A.Table.meant a.now) }
    ensures { Gathers result (G.Table.meant g.now) (A.Table.meant a.now) (numbers_of lists.now) }
{
    let n = sizes.ropes() as usize;
    let m = sizes.rows() as usize;
    let square: ArrayVec<i64, MOST_SQUARE> = numbers_in(g, n, n).unwrap();
    let weights: ArrayVec<i64, MOST_WEIGHTS> = numbers_in(a, m, n).unwrap();
    JobNumbers {
        curvature: list_numbers(&square, &[]),
        rows: list_numbers(&weights, &[]),
        costs: list_numbers(lists.c, &[]),
        bounds: list_numbers(lists.l, lists.u),
        limits: list_numbers(lists.lo, lists.hi),
        slip: list_numbers(lists.slip, &[]),
    }
}

impl JobNumbers {
    /// The same numbers, lent.
    fn lent(&self) -> Numbers<'_>
        ensures { Lends result self.now }
    {
        Numbers {
            curvature: self.curvature.as_slice(),
            rows: self.rows.as_slice(),
            costs: self.costs.as_slice(),
            bounds: self.bounds.as_slice(),
            limits: self.limits.as_slice(),
            slip: self.slip.as_slice(),
        }
    }
}

/// Writes the card of a job, and answers how many bytes it has; the bytes past it stay.
///
/// It refuses what opening refuses, and then a list that is too short. A refusal leaves the list as it stood.
/// A job that is written and read again has the same numbers.
pub fn write<G: Table, A: Table>(
    g: &G,
    a: &A,
    lists: &Lists,
    out: &mut [u8],
) -> Result<usize, Refusal>
    ensures answer { result ≡ write_answer (G.Table.meant g.now) (A.Table.meant a.now) (numbers_of lists.now) (length out.old) }
    ensures after { out.new ≡ write_after (G.Table.meant g.now) (A.Table.meant a.now) (numbers_of lists.now) out.old result }
    ensures carries { OnOk result (Carries (card_for (G.Table.meant g.now) (A.Table.meant a.now) (numbers_of lists.now))
        (G.Table.meant g.now) (A.Table.meant a.now) (numbers_of lists.now)) }
{
    check_opening(g, a, lists)?;
    let sizes = sizes_of(g, a, lists);
    let needed = sizes.card_bytes();
    if out.len() < needed {
        return Err(Refusal::Card {
            fault: Fault::Short { needed },
        });
    }
    let numbers = numbers_of_job(g, a, lists, &sizes);
    let contents = Contents::new(sizes, numbers.lent()).unwrap();
    Ok(contents.write(out).unwrap())
}
