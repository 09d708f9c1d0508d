//! Opening a plan.
ghost use Rattle.std.specs.Prelude.{◌≡◌, ◌≤◌, length, replicate, pos, IfOk, Some};
ghost use Rattle.opening.specs.Opening.{numbers_of, open_fault};
ghost use Rattle.terms.specs.Numbers.{numbers, numbers_of as terms_of, fitting};
ghost use Rattle.calls.specs.Opened.{opened, Sound, viewed};
ghost use Rattle.calls.specs.Steps.{unless};
ghost use Rattle.plan.specs.View.{view};

use crate::evaluates::copied;
use crate::state::{HeldPair, Plan};
use evaluate::Terms;
use opening::{Lists, Refusal, check_opening};
use table::Table;
use terms::MOST_ROWS;

/// A point with all multipliers 0.
fn unweighted(point: &[i64], rows: usize) -> HeldPair
    requires ropes { length point.now ≤ 16 }
    requires rows { rows ≤ 32 }
    ensures point { result.point.items ≡ point.now }
    ensures multipliers { result.multipliers.items ≡ replicate rows (pos 0) }
{
    let zeros = [0i64; MOST_ROWS];
    HeldPair {
        point: copied(point),
        multipliers: copied(&zeros[..rows]),
    }
}

/// The terms of lists that fit.
fn terms_of(lists: &Lists) -> Terms
    requires { fitting (numbers lists.now.c.now lists.now.l.now lists.now.u.now lists.now.lo.now lists.now.hi.now)
        ≡ Some (numbers lists.now.c.now lists.now.l.now lists.now.u.now lists.now.lo.now lists.now.hi.now) }
    ensures { terms_of result ≡ numbers lists.now.c.now lists.now.l.now lists.now.u.now lists.now.lo.now lists.now.hi.now }
{
    Terms::new(lists.c, lists.l, lists.u, lists.lo, lists.hi).unwrap()
}

impl<G: Table + Drop, A: Table + Drop> Plan<G, A> {
    /// Opens a plan over two tables and six lists, or names their first fault.
    ///
    /// A new plan has exactly these tables and numbers. It holds no point and no proof, and the pair of the lower bounds with all multipliers 0.
    /// Everything fits then, and the cost is convex.
    pub fn open(g: G, a: A, lists: &Lists) -> Result<Plan<G, A>, Refusal>
        ensures answer { viewed (view G.Table.meant A.Table.meant) result
            ≡ unless (open_fault (G.Table.meant g) (A.Table.meant a) (numbers_of lists.now)) (opened (G.Table.meant g) (A.Table.meant a) (numbers_of lists.now)) }
        ensures sound { IfOk result (λ p. Sound (G.Table.meant g) (A.Table.meant a) (numbers_of lists.now) (view G.Table.meant A.Table.meant p)) }
    {
        check_opening(&g, &a, lists)?;
        Ok(Plan {
            g,
            a,
            terms: terms_of(lists),
            point: None,
            proof: None,
            pair: unweighted(lists.l, lists.lo.len()),
        })
    }
}
